// Reads a macroblock's blocks and writes them into its record.
ghost use Rattle.std.specs.Prelude.{◌≡◌, ◌<◌, ◌≤◌};
ghost use Rattle.symbols.specs.Pattern.{is_coded};
ghost use Rattle.format3_writer.specs.Records.{difference_bytes, block_bytes, blocks_bytes};
ghost use Rattle.mpeg1_bits.specs.Requires.{InBytes};
ghost use Rattle.mpeg1_slice.specs.Blocks.{given_difference_at, block_at, given_block_at, blocks_from};
ghost use Rattle.mpeg1_reader.specs.WriteAnswer.{write_answer, WrittenAt, max_blocks_offset, max_last_block_offset};

use crate::coded_pairs;
use crate::write_answer::Written;
use format3_writer::fields;
use mpeg1_bits::BitPosition;
use mpeg1_slice::difference;
use mpeg1_slice::refused::RefusedAt;
use mpeg1_tables::table::CodeTable;
use symbols::pattern;

// The DC difference of an intra block.
#[tactic(auto, unfolding(mpeg1_slice::specs::Blocks::given_difference_at, format3_writer::specs::Written::written, format3_writer::specs::Bytes::big_endian_bytes))]
fn write_difference(
    table: &CodeTable,
    bytes: &[u8],
    from: BitPosition,
    intra: bool,
    block: usize,
    buffer: &mut [u8],
    offset: usize,
) -> Result<Written, RefusedAt>
    requires { InBytes bytes.now from }
    ensures value { result ≡ write_answer (difference_bytes intra) (given_difference_at intra block bytes.now from) }
    ensures written_at { WrittenAt (difference_bytes intra) offset buffer.old buffer.new (given_difference_at intra block bytes.now from) }
{
    if !intra {
        return Ok(Written { at: from, size: 0 });
    }
    let (difference, at) = difference::read_difference(table, block, bytes, from)?;
    fields::write_i16(buffer, offset, difference);
    Ok(Written { at, size: 2 })
}

#[tactic(auto, unfolding(mpeg1_slice::specs::Blocks::block_at, format3_writer::specs::Records::block_bytes))]
fn write_block(
    table: &CodeTable,
    bytes: &[u8],
    from: BitPosition,
    intra: bool,
    block: usize,
    buffer: &mut [u8],
    offset: usize,
) -> Result<Written, RefusedAt>
    requires { InBytes bytes.now from × (offset ≤ max_last_block_offset) }
    ensures value { result ≡ write_answer (block_bytes intra) (block_at intra block bytes.now from) }
    ensures written_at { WrittenAt (block_bytes intra) offset buffer.old buffer.new (block_at intra block bytes.now from) }
{
    let first = write_difference(table, bytes, from, intra, block, buffer, offset)?;
    let pairs_offset = offset + first.size;
    let second = coded_pairs::write_pairs(table, bytes, first.at, intra, buffer, pairs_offset)?;
    Ok(Written {
        at: second.at,
        size: first.size + second.size,
    })
}

// A block, if the pattern says that it is coded.
#[tactic(auto, unfolding(mpeg1_slice::specs::Blocks::given_block_at, format3_writer::specs::Records::block_bytes, format3_writer::specs::Written::written))]
fn write_coded_block(
    pattern: u8,
    table: &CodeTable,
    bytes: &[u8],
    from: BitPosition,
    intra: bool,
    block: usize,
    buffer: &mut [u8],
    offset: usize,
) -> Result<Written, RefusedAt>
    requires { InBytes bytes.now from × (offset ≤ max_last_block_offset) × (block < 6) }
    ensures value { result ≡ write_answer (block_bytes intra) (given_block_at (is_coded pattern block) intra block bytes.now from) }
    ensures written_at { WrittenAt (block_bytes intra) offset buffer.old buffer.new (given_block_at (is_coded pattern block) intra block bytes.now from) }
{
    if pattern::is_coded(pattern, block) {
        return write_block(table, bytes, from, intra, block, buffer, offset);
    }
    Ok(Written { at: from, size: 0 })
}

// All six blocks.
pub(crate) fn write_blocks(
    table: &CodeTable,
    bytes: &[u8],
    from: BitPosition,
    intra: bool,
    pattern: u8,
    buffer: &mut [u8],
    offset: usize,
) -> Result<Written, RefusedAt>
    requires { InBytes bytes.now from × (offset ≤ max_blocks_offset) }
    ensures value { result ≡ write_answer (blocks_bytes intra) (blocks_from intra pattern 6 0 bytes.now from) }
    ensures written_at { WrittenAt (blocks_bytes intra) offset buffer.old buffer.new (blocks_from intra pattern 6 0 bytes.now from) }
{
    let mut at = from;
    let mut size: usize = 0;
    for block in 0..6 {
        let end = offset + size;
        let more = write_coded_block(pattern, table, bytes, at, intra, block, buffer, end)?;
        at = more.at;
        size += more.size;
    }
    Ok(Written { at, size })
}
