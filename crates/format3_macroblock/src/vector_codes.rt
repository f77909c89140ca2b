// The codes of a motion vector: a code and a residual across, then a code and a residual down.
ghost use Rattle.std.specs.Prelude.{◌≡◌};
ghost use Rattle.format3_records.specs.Reader.{ParsesAs};
ghost use Rattle.format3_macroblock.specs.VectorCodes.{vector_code_of, vector_codes_of};

use decode_vectors::vector;
use format3_records::field;
use format3_records::field::Cursor;
use refusals::Refusal;
use symbols::vector_codes::{VectorCode, VectorCodes};

// Reads a code and its residual; the code is tested before the residual is read.
#[tactic(auto, using(crate::proofs::Laws::Reads::reads), unfolding(crate::specs::VectorCodes::vector_code_of))]
fn read_vector_code(rest: &[u8], f: u32) -> Result<(VectorCode, Cursor), Refusal>
    ensures { ParsesAs (vector_code_of f) rest.now result }
{
    let Some((code, after_code)) = field::read_i8(rest) else {
        return Err(Refusal::BodyLength);
    };
    let wide_code = i32::from(code);
    if !vector::code_in_range(wide_code) {
        return Err(Refusal::VectorCode);
    }
    let left = field::after(rest, after_code.at);
    let Some((residual, after_residual)) = field::read_u8(left) else {
        return Err(Refusal::BodyLength);
    };
    if !vector::residual_in_range(f, wide_code, u32::from(residual)) {
        return Err(Refusal::VectorCode);
    }
    let at = after_code.at + after_residual.at;
    Ok((VectorCode { code, residual }, Cursor { at }))
}

// Reads the codes of one vector; f is 2^(f_code - 1).
#[tactic(auto, using(crate::proofs::Laws::Reads::reads), unfolding(crate::specs::VectorCodes::vector_codes_of))]
pub(crate) fn read_vector_codes(rest: &[u8], f: u32) -> Result<(VectorCodes, Cursor), Refusal>
    ensures { ParsesAs (vector_codes_of f) rest.now result }
{
    let (horizontal, first) = read_vector_code(rest, f)?;
    let (vertical, second) = read_vector_code(field::after(rest, first.at), f)?;
    let at = first.at + second.at;
    let codes = VectorCodes {
        horizontal,
        vertical,
    };
    Ok((codes, Cursor { at }))
}
