// Reads an address increment: skips stuffing and adds up escapes.
ghost use Rattle.std.specs.Prelude.{◌≡◌};
ghost use Rattle.mpeg1_bits.specs.Requires.{InBytes};
ghost use Rattle.mpeg1_slice.specs.Increment.{escape_increment, first_code_at, amount_of, after_escape, increment_at};
ghost use Rattle.mpeg1_slice.specs.Answers.{answer};

use crate::element;
use crate::refused::RefusedAt;
use mpeg1_bits::BitPosition;
use mpeg1_tables::table::CodeTable;
use mpeg1_tables::word_list::WordList;
use refusals::Refusal;
use symbols::size::PictureSize;

// The values of these two codes in the code table.
const STUFFING: u16 = 34;

const INCREMENT_ESCAPE: u16 = 35;

// What an escape adds to the increment.
const ESCAPE_INCREMENT: u16 = 33;

const MAX_INCREMENT: u16 = PictureSize::MAX_MACROBLOCKS as u16;

// The first code that isn't stuffing.
fn after_stuffing(
    table: &CodeTable,
    bytes: &[u8],
    from: BitPosition,
) -> Result<(u16, BitPosition), RefusedAt>
    requires { InBytes bytes.now from }
    ensures { result ≡ answer (first_code_at bytes.now from) }
{
    let mut at = from;
    loop {
        let (value, next) = element::next_word(table, WordList::Increments, bytes, at)?;
        if value != STUFFING {
            return Ok((value, next));
        }
        at = next;
    }
}

#[tactic(auto, unfolding(crate::specs::Increment::amount_of))]
fn amount(value: u16) -> u16
    ensures { result ≡ amount_of value }
{
    if value == INCREMENT_ESCAPE {
        return ESCAPE_INCREMENT;
    }
    value
}

// The increment, once a first escape has been read.
fn after_escape(
    table: &CodeTable,
    bytes: &[u8],
    from: BitPosition,
) -> Result<(u16, BitPosition), RefusedAt>
    requires { InBytes bytes.now from }
    ensures { result ≡ answer (after_escape 12 escape_increment bytes.now from) }
{
    let mut at = from;
    let mut sum = ESCAPE_INCREMENT;
    loop {
        let (value, next) = element::next_word(table, WordList::IncrementsAfterEscape, bytes, at)?;
        let more = amount(value);
        if MAX_INCREMENT - sum < more {
            return Err(RefusedAt {
                refusal: Refusal::SliceCode,
                at,
            });
        }
        sum += more;
        if value != INCREMENT_ESCAPE {
            return Ok((sum, next));
        }
        at = next;
    }
}

#[tactic(auto, unfolding(crate::specs::Increment::increment_at))]
pub fn read_address_increment(
    table: &CodeTable,
    bytes: &[u8],
    at: BitPosition,
) -> Result<(u16, BitPosition), RefusedAt>
    requires { InBytes bytes.now at }
    ensures { result ≡ answer (increment_at bytes.now at) }
{
    let (value, next) = after_stuffing(table, bytes, at)?;
    if value == INCREMENT_ESCAPE {
        return after_escape(table, bytes, next);
    }
    Ok((value, next))
}
