// Reads a block's next pair, or the end of the block.
ghost use Rattle.std.specs.Prelude.{◌≡◌, ◌≤◌};
ghost use Rattle.mpeg1_bits.specs.Requires.{InBytes};
ghost use Rattle.mpeg1_slice.specs.Blocks.{next_pair_at};
ghost use Rattle.mpeg1_slice.specs.Answers.{answer};

use crate::refused::RefusedAt;
use mpeg1_bits::BitPosition;
use mpeg1_tables::table::CodeTable;
use mpeg1_vlc::coefficient;
use mpeg1_vlc::coefficient::Coefficient;
use refusals::Refusal;
use symbols::pair::{LAST_POSITION, Pair};

// The next pair, or none at the end of the block. `next` is the position that a run of 0 would take.
#[tactic(auto, unfolding(crate::specs::Blocks::next_pair_of))]
pub fn read_next_pair(
    table: &CodeTable,
    bytes: &[u8],
    at: BitPosition,
    first: bool,
    next: usize,
) -> Result<(Option<Pair>, BitPosition), RefusedAt>
    requires { InBytes bytes.now at × (next ≤ 64) }
    ensures { result ≡ answer (next_pair_at first next bytes.now at) }
{
    match coefficient::read_coefficient(table, bytes, at, first) {
        Ok(Coefficient::Pair(run, level, length)) => {
            let position = next + usize::from(run);
            if LAST_POSITION < position {
                return Err(RefusedAt {
                    refusal: Refusal::SliceCode,
                    at,
                });
            }
            Ok((Some(Pair { run, level }), mpeg1_bits::skip(at, length)))
        }
        Ok(Coefficient::EndOfBlock(length)) => Ok((None, mpeg1_bits::skip(at, length))),
        Err(error) => Err(RefusedAt::of_code(error, at)),
    }
}
