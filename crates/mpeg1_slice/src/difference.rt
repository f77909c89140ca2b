// Reads the DC difference of an intra block.
ghost use Rattle.std.specs.Prelude.{◌≡◌};
ghost use Rattle.mpeg1_bits.specs.Requires.{InBytes};
ghost use Rattle.mpeg1_slice.specs.Blocks.{difference_at};
ghost use Rattle.mpeg1_slice.specs.Answers.{answer};

use crate::element;
use crate::refused::RefusedAt;
use mpeg1_bits::BitPosition;
use mpeg1_tables::table::CodeTable;
use mpeg1_vlc::difference;

#[tactic(auto, unfolding(crate::specs::Blocks::difference_at))]
pub fn read_difference(
    table: &CodeTable,
    block: usize,
    bytes: &[u8],
    at: BitPosition,
) -> Result<(i16, BitPosition), RefusedAt>
    requires { InBytes bytes.now at }
    ensures { result ≡ answer (difference_at block bytes.now at) }
{
    let (size, next) = element::next_word(table, element::size_list(block), bytes, at)?;
    if size == 0 {
        return Ok((0, next));
    }
    let size = usize::from(size);
    let (value, end) = element::next_field(bytes, next, size)?;
    Ok((difference::dc_difference(size, value), end))
}
