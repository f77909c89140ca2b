// The codes of a macroblock's vectors, for the directions that its type has.
ghost use Rattle.std.specs.Prelude.{◌≡◌};
ghost use Rattle.format3_records.specs.Reader.{ParsesAs};
ghost use Rattle.format3_macroblock.specs.Vectors.{given_vector_codes_of, vectors_of};

use crate::vector_codes;
use format3_records::field;
use format3_records::field::Cursor;
use refusals::Refusal;
use symbols::macroblock_type;
use symbols::macroblock_type::{BACKWARD, FORWARD};
use symbols::vector_codes::{VectorCode, VectorCodes, Vectors};

// The codes of one direction; zeros if they are not given.
fn read_given_vector_codes(
    rest: &[u8],
    given: bool,
    f: u32,
) -> Result<(VectorCodes, Cursor), Refusal>
    ensures { ParsesAs (given_vector_codes_of given f) rest.now result }
{
    if given {
        return vector_codes::read_vector_codes(rest, f);
    }
    let none = VectorCode {
        code: 0,
        residual: 0,
    };
    let codes = VectorCodes {
        horizontal: none,
        vertical: none,
    };
    Ok((codes, Cursor { at: 0 }))
}

// Reads the forward codes, then the backward ones; each direction's f is 2^(f_code - 1).
#[tactic(auto, unfolding(crate::specs::Vectors::vectors_of))]
pub(crate) fn read_vectors(
    rest: &[u8],
    macroblock_type: u8,
    forward_f: u32,
    backward_f: u32,
) -> Result<(Vectors, Cursor), Refusal>
    ensures { ParsesAs (vectors_of macroblock_type forward_f backward_f) rest.now result }
{
    let has_forward = macroblock_type::has_part(macroblock_type, FORWARD);
    let (forward, first) = read_given_vector_codes(rest, has_forward, forward_f)?;
    let left = field::after(rest, first.at);
    let has_backward = macroblock_type::has_part(macroblock_type, BACKWARD);
    let (backward, second) = read_given_vector_codes(left, has_backward, backward_f)?;
    let at = first.at + second.at;
    Ok((Vectors { forward, backward }, Cursor { at }))
}
