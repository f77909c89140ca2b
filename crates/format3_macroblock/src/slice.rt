// A slice's record (kind 3).
ghost use Rattle.std.specs.Prelude.{◌≡◌};
ghost use Rattle.format3_records.specs.Reader.{ParsesAs};
ghost use Rattle.format3_macroblock.specs.Slice.{scale_of, slice_of, slice_answer};

use crate::tested;
use format3_records::field;
use format3_records::field::Cursor;
use refusals::Refusal;
use symbols::slice::SliceHeader;

const SLICE_BODY_LENGTH: usize = 3;

const MIN_SCALE: u8 = 1;

const MAX_SCALE: u8 = 31;

// Reads a scale (10).
#[tactic(auto, unfolding(crate::specs::Slice::scale_of))]
pub(crate) fn read_scale(rest: &[u8]) -> Result<(u8, Cursor), Refusal>
    ensures { ParsesAs scale_of rest.now result }
{
    tested::read_byte_in(rest, MIN_SCALE, MAX_SCALE, Refusal::QuantizerScale)
}

// Reads the body of a slice record: its length (6), its scale (10), its start address.
#[tactic(auto, using(symbols::proofs::Guard::guards), unfolding(crate::specs::Slice::slice_of, crate::specs::Slice::slice_fields_of))]
pub fn read_slice_record(body: &[u8]) -> Result<SliceHeader, Refusal>
    ensures { result ≡ slice_answer (slice_of body.now) }
{
    if body.len() != SLICE_BODY_LENGTH {
        return Err(Refusal::BodyLength);
    }
    let (scale, cursor) = read_scale(body)?;
    let rest = field::after(body, cursor.at);
    let Some((start, _)) = field::read_u16(rest) else {
        return Err(Refusal::BodyLength);
    };
    Ok(SliceHeader { scale, start })
}
