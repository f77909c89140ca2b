// A header's record (kind 1).
ghost use Rattle.std.specs.Prelude.{◌≡◌};
ghost use Rattle.format3_header.specs.Header.{header_of};

use refusals::Refusal;
use symbols::header;
use symbols::header::{Header, HeaderFields};

const HEADER_BODY_LENGTH: usize = 7;

// Tests the length of a header's body (6), then its fields (8).
#[tactic(auto, using(symbols::proofs::Guard::guards), unfolding(crate::specs::Header::header_of))]
pub(crate) fn read_header(body: &[u8]) -> Result<Header, Refusal>
    ensures { result ≡ header_of body.now }
{
    if body.len() != HEADER_BODY_LENGTH {
        return Err(Refusal::BodyLength);
    }
    header::header_with(HeaderFields {
        width: body[0],
        height: body[1],
        coding_type: body[2],
        full_pel_forward: body[3],
        forward_f_code: body[4],
        full_pel_backward: body[5],
        backward_f_code: body[6],
    })
}
