// Reads a macroblock and writes its record; the length and kind go in front, once the body's length is known.
ghost use Rattle.std.specs.Prelude.{◌≡◌, ◌≤◌, length};
ghost use Rattle.symbols.specs.Requires.{HeaderWithin};
ghost use Rattle.format3_writer.specs.Written.{written, max_offset};
ghost use Rattle.format3_writer.specs.Records.{pattern_bytes, macroblock_record};
ghost use Rattle.mpeg1_bits.specs.Requires.{InBytes};
ghost use Rattle.mpeg1_slice.specs.Answers.{answer};
ghost use Rattle.mpeg1_slice.specs.Macroblock.{pattern_at, pattern_and_blocks_at, vectors_and_blocks_at, macroblock_at};
ghost use Rattle.mpeg1_reader.specs.WriteAnswer.{write_answer, WrittenAt, max_vectors_offset, max_pattern_offset, pattern_and_blocks_field_bytes, vectors_and_blocks_bytes};

use crate::write_answer::Written;
use crate::{coded_blocks, head, vectors};
use format3_records::record;
use format3_writer::{fields, records};
use mpeg1_bits::BitPosition;
use mpeg1_slice::element;
use mpeg1_slice::refused::RefusedAt;
use mpeg1_tables::table::CodeTable;
use mpeg1_tables::word_list::WordList;
use symbols::header::Header;
use symbols::macroblock_type;
use symbols::macroblock_type::{INTRA, PATTERN};

const ALL_BLOCKS: u16 = 63;

// The blocks that are coded: all of an intra macroblock, else those of the pattern if the type has one, else none.
#[tactic(auto, unfolding(mpeg1_slice::specs::Macroblock::pattern_at))]
fn read_coded_pattern_code(
    table: &CodeTable,
    bytes: &[u8],
    at: BitPosition,
    macroblock_type: u8,
) -> Result<(u16, BitPosition), RefusedAt>
    requires { InBytes bytes.now at }
    ensures { result ≡ answer (pattern_at macroblock_type bytes.now at) }
{
    if macroblock_type::has_part(macroblock_type, INTRA) {
        return Ok((ALL_BLOCKS, at));
    }
    if macroblock_type::has_part(macroblock_type, PATTERN) {
        return element::next_word(table, WordList::Patterns, bytes, at);
    }
    Ok((0, at))
}

// Writes the pattern byte, if the record has one, and returns how many bytes that is.
#[tactic(auto, unfolding(format3_writer::specs::Records::pattern_bytes, format3_writer::specs::Written::written))]
fn write_pattern(buffer: &mut [u8], offset: usize, macroblock_type: u8, pattern: u8) -> usize
    ensures value { result ≡ length (pattern_bytes macroblock_type pattern) }
    ensures buffer_after { buffer.new ≡ written offset (pattern_bytes macroblock_type pattern) buffer.old }
{
    if macroblock_type::has_part(macroblock_type, INTRA) {
        return 0;
    }
    if macroblock_type::has_part(macroblock_type, PATTERN) {
        fields::write_u8(buffer, offset, pattern);
        return 1;
    }
    0
}

// The pattern and the blocks.
#[tactic(auto, unfolding(mpeg1_slice::specs::Macroblock::pattern_and_blocks_at))]
fn write_pattern_and_blocks(
    table: &CodeTable,
    bytes: &[u8],
    from: BitPosition,
    macroblock_type: u8,
    buffer: &mut [u8],
    offset: usize,
) -> Result<Written, RefusedAt>
    requires { InBytes bytes.now from × (offset ≤ max_pattern_offset) }
    ensures value { result ≡ write_answer (pattern_and_blocks_field_bytes macroblock_type) (pattern_and_blocks_at macroblock_type bytes.now from) }
    ensures written_at { WrittenAt (pattern_and_blocks_field_bytes macroblock_type) offset buffer.old buffer.new (pattern_and_blocks_at macroblock_type bytes.now from) }
{
    let (word, at) = read_coded_pattern_code(table, bytes, from, macroblock_type)?;
    let pattern = word as u8;
    let intra = macroblock_type::has_part(macroblock_type, INTRA);
    let first = write_pattern(buffer, offset, macroblock_type, pattern);
    let blocks_offset = offset + first;
    let second = coded_blocks::write_blocks(
        table,
        bytes,
        at,
        intra,
        pattern,
        buffer,
        blocks_offset,
    )?;
    Ok(Written {
        at: second.at,
        size: first + second.size,
    })
}

// What follows the head: vectors, pattern and blocks.
#[tactic(auto, unfolding(mpeg1_slice::specs::Macroblock::vectors_and_blocks_at))]
fn write_vectors_and_blocks(
    table: &CodeTable,
    bytes: &[u8],
    from: BitPosition,
    macroblock_type: u8,
    forward: u8,
    backward: u8,
    buffer: &mut [u8],
    offset: usize,
) -> Result<Written, RefusedAt>
    requires { InBytes bytes.now from × (forward ≤ 7) × (backward ≤ 7) × (offset ≤ max_vectors_offset) }
    ensures value { result ≡ write_answer (vectors_and_blocks_bytes macroblock_type) (vectors_and_blocks_at macroblock_type forward backward bytes.now from) }
    ensures written_at { WrittenAt (vectors_and_blocks_bytes macroblock_type) offset buffer.old buffer.new (vectors_and_blocks_at macroblock_type forward backward bytes.now from) }
{
    let first = vectors::write_vectors(
        table,
        bytes,
        from,
        macroblock_type,
        forward,
        backward,
        buffer,
        offset,
    )?;
    let second = write_pattern_and_blocks(
        table,
        bytes,
        first.at,
        macroblock_type,
        buffer,
        offset + first.size,
    )?;
    Ok(Written {
        at: second.at,
        size: first.size + second.size,
    })
}

// A macroblock after its increment, written as a record. Its length and kind are written last.
pub(crate) fn write_macroblock_record(
    table: &CodeTable,
    bytes: &[u8],
    from: BitPosition,
    header: Header,
    increment: u16,
    buffer: &mut [u8],
    offset: usize,
) -> Result<Written, RefusedAt>
    requires { InBytes bytes.now from × HeaderWithin header × (offset ≤ max_offset) }
    ensures value { result ≡ write_answer macroblock_record (macroblock_at header increment bytes.now from) }
    ensures written_at { WrittenAt macroblock_record offset buffer.old buffer.new (macroblock_at header increment bytes.now from) }
{
    let head = head::read_coded_head(table, bytes, from, header.coding_type)?;
    let body = offset + 3;
    let first = records::write_macroblock_head(
        buffer,
        body,
        head.macroblock_type,
        increment,
        head.scale,
    );
    let second = write_vectors_and_blocks(
        table,
        bytes,
        head.at,
        head.macroblock_type,
        header.forward.f_code,
        header.backward.f_code,
        buffer,
        body + first,
    )?;
    let size = 1 + first + second.size;
    records::write_record_head(buffer, offset, size as u16, record::MACROBLOCK_KIND);
    Ok(Written {
        at: second.at,
        size: 2 + size,
    })
}
