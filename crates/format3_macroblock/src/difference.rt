// The DC of an intra block, from its difference and the past DC (its predictor): read and tested.
ghost use Rattle.std.specs.Prelude.{◌≡◌, true};
ghost use Rattle.format3_records.specs.Reader.{ParsesAs};
ghost use Rattle.format3_macroblock.specs.Blocks.{legal_difference, legal_dc};
ghost use Rattle.format3_macroblock.specs.Decoding.{read_dc_of};

use decode_coefficients::scaling;
use format3_records::field;
use format3_records::field::Cursor;
use refusals::Refusal;

const MIN_DIFFERENCE: i16 = -255;

const MAX_DIFFERENCE: i16 = 255;

const MIN_DC: i16 = 0;

const MAX_DC: i16 = 2040;

#[tactic(auto, unfolding(crate::specs::Blocks::legal_difference))]
fn legal_difference(difference: i16) -> bool
    ensures { result ≡ legal_difference difference }
{
    (MIN_DIFFERENCE..=MAX_DIFFERENCE).contains(&difference)
}

#[tactic(auto, unfolding(crate::specs::Blocks::legal_dc))]
fn legal_dc(dc: i16) -> bool
    ensures { result ≡ legal_dc dc }
{
    (MIN_DC..=MAX_DC).contains(&dc)
}

// Reads the DC of a block: tests the difference, then the DC itself (17). A block that is not intra has no difference, and DC 0.
#[tactic(auto, using(crate::proofs::Laws::Blocks::dc_reads), unfolding(crate::specs::Blocks::difference_of))]
pub(crate) fn read_dc(rest: &[u8], past: i16, intra: bool) -> Result<(i16, Cursor), Refusal>
    requires { legal_dc past ≡ true }
    ensures { ParsesAs (read_dc_of intra past) rest.now result }
{
    if !intra {
        return Ok((0, Cursor { at: 0 }));
    }
    let Some((difference, cursor)) = field::read_i16(rest) else {
        return Err(Refusal::BodyLength);
    };
    if !legal_difference(difference) {
        return Err(Refusal::DcCoefficient);
    }
    let dc = scaling::intra_dc(past, difference);
    if !legal_dc(dc) {
        return Err(Refusal::DcCoefficient);
    }
    Ok((dc, cursor))
}
