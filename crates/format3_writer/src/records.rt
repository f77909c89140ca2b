// The records of a slice, written field by field.
ghost use Rattle.std.specs.Prelude.{◌≡◌, length};
ghost use Rattle.format3_writer.specs.Written.{written};
ghost use Rattle.format3_writer.specs.Records.{record_head, slice_record, head_bytes, vector_code_bytes, pair_bytes};

use crate::fields;
use format3_records::record;
use symbols::macroblock_type;
use symbols::macroblock_type::SCALE_GIVEN;

// A slice's record without its length field: kind, scale and start address.
const SLICE_SIZE: u8 = 4;

// Writes a record's length and kind.
#[tactic(auto, unfolding(crate::specs::Records::record_head, crate::specs::Bytes::big_endian_bytes))]
pub fn write_record_head(buffer: &mut [u8], at: usize, size: u16, kind: u8)
    ensures { buffer.new ≡ written at (record_head size kind) buffer.old }
{
    let [high, low] = size.to_be_bytes();
    fields::write_bytes(buffer, at, &[high, low, kind]);
}

// Writes a slice's whole record.
#[tactic(auto, unfolding(crate::specs::Records::record_bytes, crate::specs::Records::record_head, crate::specs::Records::slice_body, crate::specs::Bytes::big_endian_bytes))]
pub fn write_slice_record(buffer: &mut [u8], at: usize, scale: u8, start: u16)
    ensures { buffer.new ≡ written at (slice_record scale start) buffer.old }
{
    let [high, low] = start.to_be_bytes();
    let bytes = [0, SLICE_SIZE, record::SLICE_KIND, scale, high, low];
    fields::write_bytes(buffer, at, &bytes);
}

// Writes a macroblock's type, its increment and, if the type has one, its scale. Returns how many bytes that is.
#[tactic(auto, unfolding(crate::specs::Records::head_bytes, crate::specs::Bytes::big_endian_bytes))]
pub fn write_macroblock_head(
    buffer: &mut [u8],
    at: usize,
    macroblock_type: u8,
    increment: u16,
    scale: u8,
) -> usize
    ensures value { result ≡ length (head_bytes macroblock_type increment scale) }
    ensures buffer_after { buffer.new ≡ written at (head_bytes macroblock_type increment scale) buffer.old }
{
    let [high, low] = increment.to_be_bytes();
    if macroblock_type::has_part(macroblock_type, SCALE_GIVEN) {
        fields::write_bytes(buffer, at, &[macroblock_type, high, low, scale]);
        return 4;
    }
    fields::write_bytes(buffer, at, &[macroblock_type, high, low]);
    3
}

// Writes a motion code and its residual, for one component of a vector.
#[tactic(auto, using(crate::proofs::Laws::Bytes::byte_cast), unfolding(crate::specs::Records::vector_code_bytes))]
pub fn write_vector_code(buffer: &mut [u8], at: usize, code: i8, residual: u8)
    ensures { buffer.new ≡ written at (vector_code_bytes code residual) buffer.old }
{
    fields::write_bytes(buffer, at, &[code.cast_unsigned(), residual]);
}

// Writes a run and a level.
#[tactic(auto, using(crate::proofs::Laws::Bytes::word_cast, crate::proofs::Laws::Written::written_three), unfolding(crate::specs::Records::pair_bytes, crate::specs::Bytes::big_endian_bytes))]
pub fn write_pair(buffer: &mut [u8], at: usize, run: u8, level: i16)
    ensures { buffer.new ≡ written at (pair_bytes run level) buffer.old }
{
    let [high, low] = level.to_be_bytes();
    if fields::has_room(buffer.len(), at, 3) {
        buffer[at] = run;
        buffer[at + 1] = high;
        buffer[at + 2] = low;
        return;
    }
    fields::write_bytes(buffer, at, &[run, high, low]);
}
