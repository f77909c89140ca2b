// The entry `read_slice`: turns the bytes of one slice into records.
ghost use Rattle.std.specs.Prelude.{◌++◌, ◌≡◌, ◌+◌, ◌≤◌, length, take, drop};
ghost use Rattle.symbols.specs.Header.{header_with};
ghost use Rattle.symbols.specs.Requires.{HeaderWithin};
ghost use Rattle.symbols.specs.Size.{max_height};
ghost use Rattle.mpeg1_slice.specs.Slice.{first_bit, raw_slice_of};
ghost use Rattle.mpeg1_reader.specs.RecordLengths.{slice_record_bytes, max_macroblock_record_bytes};
ghost use Rattle.mpeg1_reader.specs.Answer.{given_fields, byte_given, read_outcome, raw_slice_outcome};

use crate::{macroblocks, slice};
use mpeg1_bits::BitPosition;
use mpeg1_slice::refused::RefusedAt;
use mpeg1_tables::table::CodeTable;
use refusals::Refusal;
use symbols::header;
use symbols::header::{Header, HeaderFields};

// Records are first written to a room of this size. What doesn't fit it is read again, so the size trades stack for time.
const ROOM_BYTES: usize = 1 << 13;

// The numbers of a picture's header that its slices are read with: the size in macroblocks, the coding type, and the f_codes.
#[repr(C)]
#[derive(Clone, Copy)]
pub struct PictureParameters {
    pub width: u32,
    pub height: u32,
    pub coding_type: u32,
    pub forward_f_code: u32,
    pub backward_f_code: u32,
}

// How many bytes of records were written, and the position where the unread rest starts.
#[derive(Clone, Copy)]
pub struct ReadSlice {
    pub written: usize,
    pub end: BitPosition,
}

// A refusal that no code of the slice causes: byte and bit 0.
fn refused_at_start(refusal: Refusal) -> RefusedAt
    ensures { result ≡ record { refusal = refusal; at = first_bit } }
{
    RefusedAt {
        refusal,
        at: BitPosition { byte: 0, bit: 0 },
    }
}

// Copies the first `size` bytes to the buffer's start.
fn put_front(from: &[u8], size: usize, buffer: &mut [u8])
    requires { (size ≤ length from.now) × (size ≤ length buffer.old) }
    ensures { buffer.new ≡ take size from.now ++ drop size buffer.old }
{
    buffer[..size].copy_from_slice(&from[..size]);
}

// Reads the slice into the room first, so that a refused slice leaves the buffer untouched. Then the records that are whole in the room are
// copied, and the others are read again, straight into the buffer.
fn read_into(
    table: &CodeTable,
    bytes: &[u8],
    header: Header,
    room: &mut [u8],
    buffer: &mut [u8],
) -> Result<ReadSlice, RefusedAt>
    requires { HeaderWithin header × (header.size.height ≤ max_height) × (slice_record_bytes + max_macroblock_record_bytes ≤ length room.old) }
    ensures value { result ≡ (read_outcome (raw_slice_of header bytes.now) buffer.old).answer }
    ensures buffer_after { buffer.new ≡ (read_outcome (raw_slice_of header bytes.now) buffer.old).buffer }
{
    let records = slice::write_slice(table, bytes, header, room)?;
    if buffer.len() < records.end {
        return Err(refused_at_start(Refusal::RecordsLength));
    }
    let whole = records.whole;
    put_front(room, whole.offset, buffer);
    // They are read a second time, so none is refused.
    macroblocks::write_macroblock_records(table, bytes, whole.at, header, buffer, whole.offset)?;
    Ok(ReadSlice {
        written: records.end,
        end: records.at,
    })
}

// Makes the code table and the room. Only a slice whose given numbers are legal gets here, so a call that is refused by 8 takes no stack for
// them.
fn read_with_room(bytes: &[u8], header: Header, buffer: &mut [u8]) -> Result<ReadSlice, RefusedAt>
    requires { HeaderWithin header × (header.size.height ≤ max_height) }
    ensures value { result ≡ (read_outcome (raw_slice_of header bytes.now) buffer.old).answer }
    ensures buffer_after { buffer.new ≡ (read_outcome (raw_slice_of header bytes.now) buffer.old).buffer }
{
    let table = CodeTable::new();
    let mut room = [0u8; ROOM_BYTES];
    read_into(&table, bytes, header, &mut room, buffer)
}

// A given number as a byte of the header; 8 if it is larger.
#[tactic(auto, unfolding(crate::specs::Answer::byte_given))]
fn byte_given(number: u32) -> Result<u8, Refusal>
    ensures { result ≡ byte_given number }
{
    u8::try_from(number).map_err(|_| Refusal::Header)
}

// A header made of the five given numbers, with both full-pel flags 0.
fn header_given(given: PictureParameters) -> Result<Header, Refusal>
    ensures { result ≡ header_with (given_fields given) }
{
    header::header_with(HeaderFields {
        width: byte_given(given.width)?,
        height: byte_given(given.height)?,
        coding_type: byte_given(given.coding_type)?,
        full_pel_forward: 0,
        forward_f_code: byte_given(given.forward_f_code)?,
        full_pel_backward: 0,
        backward_f_code: byte_given(given.backward_f_code)?,
    })
}

// Turns the bytes of one slice, from its start code on, into a slice record and macroblock records.
#[tactic(auto, unfolding(crate::specs::Answer::raw_slice_outcome))]
pub fn read_slice(
    bytes: &[u8],
    given: PictureParameters,
    buffer: &mut [u8],
) -> Result<ReadSlice, RefusedAt>
    ensures value { result ≡ (raw_slice_outcome (given_fields given) bytes.now buffer.old).answer }
    ensures buffer_after { buffer.new ≡ (raw_slice_outcome (given_fields given) bytes.now buffer.old).buffer }
{
    let header = header_given(given).map_err(refused_at_start)?;
    read_with_room(bytes, header, buffer)
}
