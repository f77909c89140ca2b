// Reads a macroblock's motion codes.
ghost use Rattle.std.specs.Prelude.{◌≡◌, ◌≤◌, pos, ◌-ℤ◌};
ghost use Rattle.mpeg1_bits.specs.Requires.{InBytes};
ghost use Rattle.mpeg1_slice.specs.Vectors.{residual_at, component_at};
ghost use Rattle.mpeg1_slice.specs.Answers.{answer, component_answer};

use crate::element;
use crate::refused::RefusedAt;
use mpeg1_bits::BitPosition;
use mpeg1_tables::table::CodeTable;
use mpeg1_tables::word_list::WordList;

// The motion code 0 in the code table, which adds 16.
const ZERO: u16 = 16;

// The motion code and residual of one component.
#[derive(Clone, Copy)]
pub struct Component {
    pub code: i8,
    pub residual: u8,
}

#[tactic(auto, unfolding(crate::specs::Vectors::residual_at))]
fn read_residual(
    bytes: &[u8],
    at: BitPosition,
    f_code: u8,
    value: u16,
) -> Result<(u16, BitPosition), RefusedAt>
    requires { InBytes bytes.now at × (f_code ≤ 7) }
    ensures { result ≡ answer (residual_at f_code value bytes.now at) }
{
    if value == ZERO || f_code <= 1 {
        return Ok((0, at));
    }
    let n = usize::from(f_code - 1);
    element::next_field(bytes, at, n)
}

fn code_of(value: u16) -> i8
    requires { value ≤ 32 }
    ensures { result ≡ pos value -ℤ pos 16 }
{
    let code = value as i8;
    code - 16
}

#[tactic(auto, unfolding(crate::specs::Vectors::component_at))]
pub fn read_component(
    table: &CodeTable,
    bytes: &[u8],
    at: BitPosition,
    f_code: u8,
) -> Result<(Component, BitPosition), RefusedAt>
    requires { InBytes bytes.now at × (f_code ≤ 7) }
    ensures { result ≡ component_answer (component_at f_code bytes.now at) }
{
    let (value, next) = element::next_word(table, WordList::MotionCodes, bytes, at)?;
    let (residual, end) = read_residual(bytes, next, f_code, value)?;
    let component = Component {
        code: code_of(value),
        residual: residual as u8,
    };
    Ok((component, end))
}
