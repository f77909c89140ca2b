// Reads a block's pairs and writes them, preceded by their count.
ghost use Rattle.std.specs.Prelude.{◌≡◌, ◌≤◌};
ghost use Rattle.format3_writer.specs.Records.{levels_bytes};
ghost use Rattle.mpeg1_bits.specs.Requires.{InBytes};
ghost use Rattle.mpeg1_slice.specs.Blocks.{pairs_at};
ghost use Rattle.mpeg1_reader.specs.WriteAnswer.{write_answer, WrittenAt, max_pairs_offset};

use crate::write_answer::Written;
use format3_writer::{fields, records};
use mpeg1_bits::BitPosition;
use mpeg1_slice::coefficient;
use mpeg1_slice::refused::RefusedAt;
use mpeg1_tables::table::CodeTable;
use symbols::pair;

pub(crate) fn write_pairs(
    table: &CodeTable,
    bytes: &[u8],
    from: BitPosition,
    intra: bool,
    buffer: &mut [u8],
    offset: usize,
) -> Result<Written, RefusedAt>
    requires { InBytes bytes.now from × (offset ≤ max_pairs_offset) }
    ensures value { result ≡ write_answer levels_bytes (pairs_at intra bytes.now from) }
    ensures written_at { WrittenAt levels_bytes offset buffer.old buffer.new (pairs_at intra bytes.now from) }
{
    let mut at = from;
    let mut first = !intra;
    let mut next = pair::first_position(intra);
    let mut count: u8 = 0;
    let mut end = offset + 1;
    loop {
        let (found, after) = coefficient::read_next_pair(table, bytes, at, first, next)?;
        let Some(pair) = found else {
            fields::write_u8(buffer, offset, count);
            return Ok(Written {
                at: after,
                size: end - offset,
            });
        };
        records::write_pair(buffer, end, pair.run, pair.level);
        at = after;
        first = false;
        next = next + usize::from(pair.run) + 1;
        count += 1;
        end += 3;
    }
}
