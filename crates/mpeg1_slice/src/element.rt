// Reads one syntax element: its value and the position after its code, or a refusal at the code's start.
ghost use Rattle.std.specs.Prelude.{◌≡◌, ◌<◌, ◌≤◌};
ghost use Rattle.mpeg1_bits.specs.Requires.{InBytes};
ghost use Rattle.mpeg1_tables.specs.WordList.{words_in};
ghost use Rattle.mpeg1_slice.specs.Slice.{slice_start_at, first_bit};
ghost use Rattle.mpeg1_slice.specs.Read.{read_code, word_at, field_at};
ghost use Rattle.mpeg1_slice.specs.Blocks.{size_words};
ghost use Rattle.mpeg1_slice.specs.Answers.{CodeFits, answer};

use crate::refused::RefusedAt;
use mpeg1_bits::BitPosition;
use mpeg1_tables::code::{Code, CodeError};
use mpeg1_tables::table::CodeTable;
use mpeg1_tables::word_list::WordList;
use mpeg1_vlc::{reader, slice_start};

fn element_of(
    code: Result<Code, CodeError>,
    at: BitPosition,
) -> Result<(u16, BitPosition), RefusedAt>
    requires { (at.bit < 8) × CodeFits at code }
    ensures { result ≡ answer (read_code code at) }
{
    match code {
        Ok(code) => Ok((code.value, mpeg1_bits::skip(at, code.length))),
        Err(error) => Err(RefusedAt::of_code(error, at)),
    }
}

// A word of a list.
pub fn next_word(
    table: &CodeTable,
    list: WordList,
    bytes: &[u8],
    at: BitPosition,
) -> Result<(u16, BitPosition), RefusedAt>
    requires { InBytes bytes.now at }
    ensures { result ≡ answer (word_at (words_in list) bytes.now at) }
{
    element_of(reader::read_word(table, list, bytes, at), at)
}

// An n-bit number.
pub fn next_field(bytes: &[u8], at: BitPosition, n: usize) -> Result<(u16, BitPosition), RefusedAt>
    requires { InBytes bytes.now at × (n ≤ 8) }
    ensures { result ≡ answer (field_at n bytes.now at) }
{
    element_of(reader::read_field(bytes, at, n), at)
}

// The slice's start code; its value is the row.
pub fn next_start(bytes: &[u8], height: u8) -> Result<(u16, BitPosition), RefusedAt>
    ensures { result ≡ answer (slice_start_at height bytes.now first_bit) }
{
    let first = BitPosition { byte: 0, bit: 0 };
    element_of(slice_start::read_slice_start(bytes, first, height), first)
}

// The words for the size of a block's DC difference.
#[tactic(auto, unfolding(crate::specs::Blocks::size_words))]
pub(crate) fn size_list(block: usize) -> WordList
    ensures { words_in result ≡ size_words block }
{
    if block < 4 {
        return WordList::LuminanceSizes;
    }
    WordList::ChrominanceSizes
}
