// Looks up the next bits in a row of the code table.
ghost use Rattle.std.specs.Prelude.{◌≡◌, ◌+◌, ◌^◌, ◌<◌, take};
ghost use Rattle.mpeg1_bits.specs.Bits.{bits_in};
ghost use Rattle.mpeg1_tables.specs.Code.{code_of};
ghost use Rattle.mpeg1_tables.specs.Table.{table_row_at};
ghost use Rattle.mpeg1_vlc.specs.Requires.{LookUpFits};
ghost use Rattle.mpeg1_vlc.specs.LookUp.{unpadded_of};

use mpeg1_bits::Window;
use mpeg1_tables::code::{Code, CodeError};
use mpeg1_tables::table::CodeTable;

pub(crate) fn power_of_two(n: usize) -> usize
    requires { n < 16 }
    ensures { result ≡ 2 ^ n }
{
    1 << n
}

// The code of `count` bits, given the codes of these bits padded with zeros and padded with ones.
#[tactic(auto, unfolding(crate::specs::LookUp::unpadded_of))]
fn unpadded(
    count: usize,
    zeroed: Result<Code, CodeError>,
    filled: Result<Code, CodeError>,
) -> Result<Code, CodeError>
    ensures { result ≡ unpadded_of count zeroed filled }
{
    match zeroed {
        Ok(code) => {
            if count < code.length {
                return Err(CodeError::Truncated);
            }
            Ok(code)
        }
        Err(CodeError::NoCode) => match filled {
            Err(CodeError::NoCode) => Err(CodeError::NoCode),
            _ => Err(CodeError::Truncated),
        },
        Err(CodeError::Truncated) => Err(CodeError::Truncated),
    }
}

// Fewer than eight bits follow the row's zeros, which happens only at the end of the bytes. Looks the bits up twice: padded with zeros,
// and with ones.
fn look_up_end(table: &CodeTable, row: usize, zeros: usize, next: Window) -> Result<Code, CodeError>
    requires { LookUpFits row zeros next × (next.count < zeros + 8) }
    ensures { result ≡ code_of (table_row_at row).words (take (zeros + 8) (bits_in next)) }
{
    let padding = power_of_two(zeros + 8 - next.count);
    let past = 32 - next.count;
    let first = ((next.bits as usize) >> past) * padding;
    let last = first + (padding - 1);
    let zeroed = table.code(row, first);
    let filled = table.code(row, last);
    unpadded(next.count, zeroed, filled)
}

// The code that the row's words give for its zeros and the eight bits after them.
pub(crate) fn look_up(
    table: &CodeTable,
    row: usize,
    zeros: usize,
    next: Window,
) -> Result<Code, CodeError>
    requires { LookUpFits row zeros next }
    ensures { result ≡ code_of (table_row_at row).words (take (zeros + 8) (bits_in next)) }
{
    if next.count < zeros + 8 {
        return look_up_end(table, row, zeros, next);
    }
    let past = 24 - zeros;
    let index = (next.bits as usize) >> past;
    table.code(row, index)
}
