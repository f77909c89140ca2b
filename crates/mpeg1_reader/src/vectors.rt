// Reads a macroblock's motion codes and writes them into its record.
ghost use Rattle.std.specs.Prelude.{◌≡◌, ◌<◌, ◌≤◌};
ghost use Rattle.symbols.specs.MacroblockType.{has_part};
ghost use Rattle.format3_writer.specs.Records.{vector_codes_bytes, given_vector_codes_bytes};
ghost use Rattle.mpeg1_bits.specs.Requires.{InBytes};
ghost use Rattle.mpeg1_slice.specs.Vectors.{component_at, vector_codes_at, given_vector_codes_at};
ghost use Rattle.mpeg1_slice.specs.Macroblock.{vectors_at};
ghost use Rattle.mpeg1_reader.specs.WriteAnswer.{write_answer, WrittenAt, max_vectors_offset, max_backward_offset, component_bytes, vectors_field_bytes};

use crate::write_answer::Written;
use format3_writer::records;
use mpeg1_bits::BitPosition;
use mpeg1_slice::refused::RefusedAt;
use mpeg1_slice::vectors;
use mpeg1_tables::table::CodeTable;
use symbols::macroblock_type;
use symbols::macroblock_type::{BACKWARD, FORWARD};

// The code and residual of one component.
#[tactic(auto, unfolding(format3_writer::specs::Records::vector_code_bytes))]
fn write_component(
    table: &CodeTable,
    bytes: &[u8],
    from: BitPosition,
    f_code: u8,
    buffer: &mut [u8],
    offset: usize,
) -> Result<Written, RefusedAt>
    requires { InBytes bytes.now from × (f_code ≤ 7) }
    ensures value { result ≡ write_answer component_bytes (component_at f_code bytes.now from) }
    ensures written_at { WrittenAt component_bytes offset buffer.old buffer.new (component_at f_code bytes.now from) }
{
    let (component, at) = vectors::read_component(table, bytes, from, f_code)?;
    records::write_vector_code(buffer, offset, component.code, component.residual);
    Ok(Written { at, size: 2 })
}

// The codes of one direction: horizontal, then vertical.
#[tactic(auto, unfolding(mpeg1_slice::specs::Vectors::vector_codes_at, format3_writer::specs::Records::vector_codes_bytes))]
fn write_vector_codes(
    table: &CodeTable,
    bytes: &[u8],
    from: BitPosition,
    f_code: u8,
    buffer: &mut [u8],
    offset: usize,
) -> Result<Written, RefusedAt>
    requires { InBytes bytes.now from × (f_code ≤ 7) × (offset ≤ max_backward_offset) }
    ensures value { result ≡ write_answer vector_codes_bytes (vector_codes_at f_code bytes.now from) }
    ensures written_at { WrittenAt vector_codes_bytes offset buffer.old buffer.new (vector_codes_at f_code bytes.now from) }
{
    let first = write_component(table, bytes, from, f_code, buffer, offset)?;
    let vertical_offset = offset + first.size;
    let second = write_component(table, bytes, first.at, f_code, buffer, vertical_offset)?;
    Ok(Written {
        at: second.at,
        size: first.size + second.size,
    })
}

// The codes of one direction, if the type has them; `part` is FORWARD or BACKWARD.
#[tactic(auto, unfolding(mpeg1_slice::specs::Vectors::given_vector_codes_at, format3_writer::specs::Written::written))]
fn write_given_vector_codes(
    macroblock_type: u8,
    part: u8,
    table: &CodeTable,
    bytes: &[u8],
    from: BitPosition,
    f_code: u8,
    buffer: &mut [u8],
    offset: usize,
) -> Result<Written, RefusedAt>
    requires { InBytes bytes.now from × (f_code ≤ 7) × (offset ≤ max_backward_offset) × (0 < part) }
    ensures value { result ≡ write_answer (given_vector_codes_bytes (has_part macroblock_type part)) (given_vector_codes_at (has_part macroblock_type part) f_code bytes.now from) }
    ensures written_at { WrittenAt (given_vector_codes_bytes (has_part macroblock_type part)) offset buffer.old buffer.new (given_vector_codes_at (has_part macroblock_type part) f_code bytes.now from) }
{
    if macroblock_type::has_part(macroblock_type, part) {
        return write_vector_codes(table, bytes, from, f_code, buffer, offset);
    }
    Ok(Written { at: from, size: 0 })
}

// The codes of both directions.
#[tactic(auto, unfolding(mpeg1_slice::specs::Macroblock::vectors_at))]
pub(crate) fn write_vectors(
    table: &CodeTable,
    bytes: &[u8],
    from: BitPosition,
    macroblock_type: u8,
    forward: u8,
    backward: u8,
    buffer: &mut [u8],
    offset: usize,
) -> Result<Written, RefusedAt>
    requires { InBytes bytes.now from × (forward ≤ 7) × (backward ≤ 7) × (offset ≤ max_vectors_offset) }
    ensures value { result ≡ write_answer (vectors_field_bytes macroblock_type) (vectors_at macroblock_type forward backward bytes.now from) }
    ensures written_at { WrittenAt (vectors_field_bytes macroblock_type) offset buffer.old buffer.new (vectors_at macroblock_type forward backward bytes.now from) }
{
    let first = write_given_vector_codes(
        macroblock_type,
        FORWARD,
        table,
        bytes,
        from,
        forward,
        buffer,
        offset,
    )?;
    let second = write_given_vector_codes(
        macroblock_type,
        BACKWARD,
        table,
        bytes,
        first.at,
        backward,
        buffer,
        offset + first.size,
    )?;
    Ok(Written {
        at: second.at,
        size: first.size + second.size,
    })
}
