// Reads a whole slice and writes its records.
ghost use Rattle.std.specs.Prelude.{◌≡◌, ◌+◌, ◌≤◌, length};
ghost use Rattle.symbols.specs.Requires.{HeaderWithin};
ghost use Rattle.symbols.specs.Size.{max_height, max_macroblocks};
ghost use Rattle.format3_writer.specs.Records.{slice_bytes};
ghost use Rattle.mpeg1_bits.specs.Requires.{InBytes};
ghost use Rattle.mpeg1_slice.specs.Slice.{start_address, after_head_at, raw_slice_of};
ghost use Rattle.mpeg1_reader.specs.WriteAnswer.{WrittenAt};
ghost use Rattle.mpeg1_reader.specs.RecordLengths.{slice_record_bytes, max_macroblock_record_bytes};
ghost use Rattle.mpeg1_reader.specs.RecordOffsets.{RecordsAnswered};

use crate::write_answer::WrittenRecords;
use crate::{macroblock, macroblocks, slice_head};
use format3_writer::records;
use mpeg1_bits::BitPosition;
use mpeg1_slice::increment;
use mpeg1_slice::refused::RefusedAt;
use mpeg1_tables::table::CodeTable;
use symbols::header::Header;

// How many bytes a slice's record takes.
const SLICE_RECORD_BYTES: usize = 6;

// The address of the first macroblock.
#[tactic(auto, unfolding(mpeg1_slice::specs::Slice::start_address))]
fn start_address(header: Header, row: u8, increment: u16) -> u16
    requires { HeaderWithin header × (1 ≤ row) × (row ≤ header.size.height) × (1 ≤ increment) × (increment ≤ max_macroblocks) }
    ensures { result ≡ start_address header row increment }
{
    let size = header.size;
    let above = (usize::from(row) - 1) * size.width;
    let next = above + usize::from(increment);
    (next - 1) as u16
}

// What follows the slice's head, written as its record and those of its macroblocks.
fn write_records(
    table: &CodeTable,
    bytes: &[u8],
    from: BitPosition,
    header: Header,
    row: u8,
    scale: u8,
    room: &mut [u8],
) -> Result<WrittenRecords, RefusedAt>
    requires { InBytes bytes.now from × HeaderWithin header × (1 ≤ row) × (row ≤ header.size.height) × (slice_record_bytes + max_macroblock_record_bytes ≤ length room.old) }
    ensures records_answered { RecordsAnswered slice_bytes header bytes.now 0 (length room.old) (after_head_at header row scale bytes.now from) result }
    ensures written_at { WrittenAt slice_bytes 0 room.old room.new (after_head_at header row scale bytes.now from) }
{
    let (increment, at) = increment::read_address_increment(table, bytes, from)?;
    let start = start_address(header, row, increment);
    records::write_slice_record(room, 0, scale, start);
    // The slice's record has the first macroblock's increment.
    let first = macroblock::write_macroblock_record(
        table,
        bytes,
        at,
        header,
        1,
        room,
        SLICE_RECORD_BYTES,
    )?;
    let end = SLICE_RECORD_BYTES + first.size;
    macroblocks::write_macroblock_records(table, bytes, first.at, header, room, end)
}

// Reads the slice into a room that holds at least its record and its first macroblock's. The checkpoint says up to where the room has its
// records.
#[tactic(auto, unfolding(mpeg1_slice::specs::Slice::raw_slice_of))]
pub(crate) fn write_slice(
    table: &CodeTable,
    bytes: &[u8],
    header: Header,
    room: &mut [u8],
) -> Result<WrittenRecords, RefusedAt>
    requires { HeaderWithin header × (header.size.height ≤ max_height) × (slice_record_bytes + max_macroblock_record_bytes ≤ length room.old) }
    ensures records_answered { RecordsAnswered slice_bytes header bytes.now 0 (length room.old) (raw_slice_of header bytes.now) result }
    ensures written_at { WrittenAt slice_bytes 0 room.old room.new (raw_slice_of header bytes.now) }
{
    let height = header.size.height as u8;
    let head = slice_head::read_slice_head(bytes, height)?;
    write_records(table, bytes, head.at, header, head.row, head.scale, room)
}
