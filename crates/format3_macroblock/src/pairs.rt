// The pairs of a block: each is read, tested, scaled and stored at its raster index, in one pass.
ghost use Rattle.std.specs.Prelude.{◌≡◌, ◌≤◌};
ghost use Rattle.symbols.specs.Pair.{first_position};
ghost use Rattle.decode_coefficients.specs.Marks.{Marked};
ghost use Rattle.format3_records.specs.Reader.{ParsesAs};
ghost use Rattle.format3_macroblock.specs.Requires.{BeforePairs};
ghost use Rattle.format3_macroblock.specs.Pairs.{legal_level, pair_of, pairs_of, pairs_before_refusal};
ghost use Rattle.format3_macroblock.specs.Landing.{block_read, pairs_result};

use crate::level_coding::LevelCoding;
use decode_coefficients::block;
use format3_records::field;
use format3_records::field::Cursor;
use refusals::Refusal;
use symbols::pair;
use symbols::pair::{LAST_POSITION, Pair};

const MIN_LEVEL: i16 = -255;

const MAX_LEVEL: i16 = 255;

// Where the pairs end, if all of them are legal. The block has the levels of the pairs before the first one that is refused, or of all of
// them. Its marks are beside it.
#[derive(Clone, Copy)]
pub struct PairsRead {
    pub answer: Result<Cursor, Refusal>,
    pub block: [i16; 64],
    pub marks: u64,
}

#[tactic(auto, unfolding(crate::specs::Pairs::legal_level))]
fn legal_level(level: i16) -> bool
    ensures { result ≡ legal_level level }
{
    (MIN_LEVEL..=MAX_LEVEL).contains(&level) && level != 0
}

// Reads a run and a level; a run of 0 lands at position `next`. The position is tested before the level is read.
#[tactic(auto, using(crate::proofs::Laws::Reads::reads), unfolding(crate::specs::Pairs::pair_of))]
fn read_pair(rest: &[u8], next: usize) -> Result<(Pair, Cursor), Refusal>
    requires { next ≤ 64 }
    ensures { ParsesAs (pair_of next) rest.now result }
{
    let Some((run, after_run)) = field::read_u8(rest) else {
        return Err(Refusal::BodyLength);
    };
    if LAST_POSITION < next + usize::from(run) {
        return Err(Refusal::Coefficient);
    }
    let run_end = after_run.at;
    let Some((level, after_level)) = field::read_i16(&rest[run_end..]) else {
        return Err(Refusal::BodyLength);
    };
    if !legal_level(level) {
        return Err(Refusal::Coefficient);
    }
    let at = run_end + after_level.at;
    Ok((Pair { run, level }, Cursor { at }))
}

// Reads the pairs of a block: each level is stored as it comes, scaled, and marked if it is not 0 then.
pub(crate) fn read_pairs(
    rest: &[u8],
    count: u8,
    coding: LevelCoding<'_>,
    block: [i16; 64],
    marks: u64,
) -> PairsRead
    requires { BeforePairs coding.scaling block × Marked block marks }
    ensures parses_as { ParsesAs (pairs_of count (first_position coding.entry.scaling.intra)) rest.now (pairs_result result.answer (pairs_before_refusal count (first_position coding.entry.scaling.intra) rest.now)) × (result.block ≡ block_read coding.entry.scaling coding.entry.matrix.now count rest.now block) }
    ensures marked { Marked result.block result.marks }
{
    let mut block = block;
    let mut marks = marks;
    let mut next = pair::first_position(coding.scaling.intra);
    let mut at: usize = 0;
    for _ in 0..count {
        let (pair, cursor) = match read_pair(&rest[at..], next) {
            Ok(read) => read,
            Err(refusal) => {
                return PairsRead {
                    answer: Err(refusal),
                    block,
                    marks,
                };
            }
        };
        let position = next + usize::from(pair.run);
        marks = block::store_level(
            &mut block,
            marks,
            position,
            pair.level,
            coding.scaling,
            &coding.order.raster,
            coding.matrix,
        );
        next = position + 1;
        at += cursor.at;
    }
    PairsRead {
        answer: Ok(Cursor { at }),
        block,
        marks,
    }
}
