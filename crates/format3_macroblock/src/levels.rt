// The levels of a block: a count of pairs, then the pairs.
ghost use Rattle.std.specs.Prelude.{◌≡◌};
ghost use Rattle.decode_coefficients.specs.Marks.{Marked};
ghost use Rattle.format3_records.specs.Reader.{ParsesAs};
ghost use Rattle.format3_macroblock.specs.Requires.{BeforePairs};
ghost use Rattle.format3_macroblock.specs.Landing.{pairs_result};
ghost use Rattle.format3_macroblock.specs.Blocks.{count_of};
ghost use Rattle.format3_macroblock.specs.Decoding.{levels_into};

use crate::level_coding::LevelCoding;
use crate::pairs::PairsRead;
use crate::{pairs, tested};
use format3_records::field;
use format3_records::field::Cursor;
use refusals::Refusal;

const MIN_PAIRS: u8 = 1;

const MAX_PAIRS: u8 = 64;

const MIN_INTRA_PAIRS: u8 = 0;

const MAX_INTRA_PAIRS: u8 = 63;

// Reads the count of pairs (16).
#[tactic(auto, unfolding(crate::specs::Blocks::count_of, crate::specs::Blocks::legal_count))]
fn read_count(rest: &[u8], intra: bool) -> Result<(u8, Cursor), Refusal>
    ensures { ParsesAs (count_of intra) rest.now result }
{
    if intra {
        return tested::read_byte_in(rest, MIN_INTRA_PAIRS, MAX_INTRA_PAIRS, Refusal::Coefficient);
    }
    tested::read_byte_in(rest, MIN_PAIRS, MAX_PAIRS, Refusal::Coefficient)
}

// Reads the count of pairs, then the pairs into the block, and marks them.
#[tactic(auto, unfolding(crate::specs::Blocks::levels_of))]
pub(crate) fn read_levels(
    rest: &[u8],
    coding: LevelCoding<'_>,
    block: [i16; 64],
    marks: u64,
) -> PairsRead
    requires { BeforePairs coding.scaling block × Marked block marks }
    ensures parses_as { ParsesAs (levels_into coding.entry.scaling coding.entry.matrix.now block) rest.now (pairs_result result.answer result.block) }
    ensures marked { Marked result.block result.marks }
{
    let (count, after_count) = match read_count(rest, coding.scaling.intra) {
        Ok(read) => read,
        Err(refusal) => {
            return PairsRead {
                answer: Err(refusal),
                block,
                marks,
            };
        }
    };
    let left = field::after(rest, after_count.at);
    let read = pairs::read_pairs(left, count, coding, block, marks);
    let Ok(end) = read.answer else {
        return read;
    };
    let values = read.block;
    let at = after_count.at + end.at;
    PairsRead {
        answer: Ok(Cursor { at }),
        block: values,
        marks: read.marks,
    }
}
