// Reads the macroblocks of a slice after the first, and writes their records.
ghost use Rattle.std.specs.Prelude.{◌≡◌, ◌≤◌, length};
ghost use Rattle.math.specs.Joined.{joined};
ghost use Rattle.symbols.specs.Requires.{HeaderWithin};
ghost use Rattle.format3_writer.specs.Written.{max_offset};
ghost use Rattle.format3_writer.specs.Records.{macroblock_record};
ghost use Rattle.mpeg1_bits.specs.Requires.{InBytes};
ghost use Rattle.mpeg1_slice.specs.Slice.{next_macroblock_at, macroblocks_at};
ghost use Rattle.mpeg1_reader.specs.WriteAnswer.{write_answer, WrittenAt};
ghost use Rattle.mpeg1_reader.specs.RecordOffsets.{RecordsAnswered};

use crate::macroblock;
use crate::write_answer::{Checkpoint, Written, WrittenRecords};
use format3_writer::fields;
use mpeg1_bits::BitPosition;
use mpeg1_slice::increment;
use mpeg1_slice::refused::RefusedAt;
use mpeg1_tables::table::CodeTable;
use symbols::header::Header;

// An increment and its macroblock.
#[tactic(auto, unfolding(mpeg1_slice::specs::Slice::next_macroblock_at))]
fn write_next_record(
    table: &CodeTable,
    bytes: &[u8],
    from: BitPosition,
    header: Header,
    buffer: &mut [u8],
    offset: usize,
) -> Result<Written, RefusedAt>
    requires { InBytes bytes.now from × HeaderWithin header × (offset ≤ max_offset) }
    ensures value { result ≡ write_answer macroblock_record (next_macroblock_at header bytes.now from) }
    ensures written_at { WrittenAt macroblock_record offset buffer.old buffer.new (next_macroblock_at header bytes.now from) }
{
    let (increment, at) = increment::read_address_increment(table, bytes, from)?;
    macroblock::write_macroblock_record(table, bytes, at, header, increment, buffer, offset)
}

// Writes the macroblocks until only zero bits are left. Records that don't fit the buffer are read and counted all the same: the
// checkpoint says where to go on once there is more room.
pub(crate) fn write_macroblock_records(
    table: &CodeTable,
    bytes: &[u8],
    from: BitPosition,
    header: Header,
    buffer: &mut [u8],
    offset: usize,
) -> Result<WrittenRecords, RefusedAt>
    requires { InBytes bytes.now from × HeaderWithin header × (offset ≤ length buffer.old) }
    ensures records_answered { RecordsAnswered (joined macroblock_record) header bytes.now offset (length buffer.old) (macroblocks_at header bytes.now from) result }
    ensures written_at { WrittenAt (joined macroblock_record) offset buffer.old buffer.new (macroblocks_at header bytes.now from) }
{
    let length = buffer.len();
    let mut at = from;
    let mut end = offset;
    let mut whole = Checkpoint { at, offset };
    while !mpeg1_bits::only_zeros_left(bytes, at) {
        let more = write_next_record(table, bytes, at, header, buffer, end)?;
        at = more.at;
        end = fields::saturating_add(end, more.size);
        whole = whole.or_next(Checkpoint { at, offset: end }, length);
    }
    Ok(WrittenRecords { at, end, whole })
}
