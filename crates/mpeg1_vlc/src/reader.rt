// Reads each kind of code of Annex B except coefficients, and numbers.
ghost use Rattle.std.specs.Prelude.{◌≡◌, ◌≤◌};
ghost use Rattle.mpeg1_bits.specs.Requires.{InBytes};
ghost use Rattle.mpeg1_bits.specs.Bits.{bits_from};
ghost use Rattle.mpeg1_tables.specs.Code.{code_of, field_of};
ghost use Rattle.mpeg1_tables.specs.WordList.{words_in};

use crate::lookup::look_up;
use mpeg1_bits::{BitPosition, peek};
use mpeg1_tables::code::{Code, CodeError};
use mpeg1_tables::table::CodeTable;
use mpeg1_tables::word_list::WordList;

// The least number of 32 bits that does not start with five zeros.
const PAST_FIVE_ZEROS: u32 = 1 << 27;

// A word of a list. The caller builds the table once, by `CodeTable::new`, and lends it.
pub fn read_word(
    table: &CodeTable,
    list: WordList,
    bytes: &[u8],
    at: BitPosition,
) -> Result<Code, CodeError>
    requires { InBytes bytes.now at }
    ensures { result ≡ code_of (words_in list) (bits_from bytes.now at) }
{
    let next = peek(bytes, at);
    let row = list.row();
    if list.has_long_words() && 8 <= next.count && next.bits < PAST_FIVE_ZEROS {
        return look_up(table, row + 1, 5, next);
    }
    look_up(table, row, 0, next)
}

// An n-bit number.
pub fn read_field(bytes: &[u8], at: BitPosition, n: usize) -> Result<Code, CodeError>
    requires { InBytes bytes.now at × (n ≤ 16) }
    ensures { result ≡ field_of n (bits_from bytes.now at) }
{
    let next = peek(bytes, at);
    if next.count < n {
        return Err(CodeError::Truncated);
    }
    let past = 32 - n;
    let value = (next.bits as usize) >> past;
    Ok(Code {
        value: value as u16,
        length: n,
    })
}
