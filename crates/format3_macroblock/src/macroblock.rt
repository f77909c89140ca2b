// A macroblock record (kind 4): the symbols before its blocks, and the blocks.
ghost use Rattle.std.specs.Prelude.{◌≡◌, ◌*◌, ◌≤◌, pos, replicate};
ghost use Rattle.decode_coefficients.specs.Matrices.{matrices_of};
ghost use Rattle.decode_coefficients.specs.Marks.{BlocksMarked};
ghost use Rattle.format3_records.specs.Reader.{ParsesAs};
ghost use Rattle.format3_macroblock.specs.Requires.{LegalDcPasts};
ghost use Rattle.format3_macroblock.specs.Decoding.{decoded_blocks_result, decoded_to_end_of};
ghost use Rattle.format3_macroblock.specs.Macroblock.{pattern_of, coded_pattern_of, macroblock_symbols_of};

use crate::blocks::BlocksCoding;
use crate::macroblock_head::HeadContext;
use crate::{blocks, macroblock_head, tested, vectors};
use decode_coefficients::dc::DcPasts;
use decode_coefficients::matrices;
use format3_records::field::Cursor;
use refusals::Refusal;
use symbols::macroblock::MacroblockSymbols;
use symbols::macroblock_type;
use symbols::macroblock_type::{INTRA, PATTERN};
use symbols::pattern::ALL_BLOCKS;

const MIN_PATTERN: u8 = 1;

const MAX_PATTERN: u8 = ALL_BLOCKS;

// What reading a macroblock depends on: what its head is tested against, f for each direction, and the DC pasts.
#[derive(Clone, Copy)]
pub struct MacroblockContext {
    pub head: HeadContext,
    pub forward_f: u32,
    pub backward_f: u32,
    pub dc: DcPasts,
}

// Reads a pattern (15).
#[tactic(auto, unfolding(crate::specs::Macroblock::pattern_of))]
fn read_pattern(rest: &[u8]) -> Result<(u8, Cursor), Refusal>
    ensures { ParsesAs pattern_of rest.now result }
{
    tested::read_byte_in(rest, MIN_PATTERN, MAX_PATTERN, Refusal::Pattern)
}

// Which blocks are coded: all in an intra macroblock, those of the pattern if the type has one, otherwise none.
fn read_coded_pattern(rest: &[u8], macroblock_type: u8) -> Result<(u8, Cursor), Refusal>
    ensures { ParsesAs (coded_pattern_of macroblock_type) rest.now result }
{
    if macroblock_type::has_part(macroblock_type, INTRA) {
        return Ok((ALL_BLOCKS, Cursor { at: 0 }));
    }
    if !macroblock_type::has_part(macroblock_type, PATTERN) {
        return Ok((0, Cursor { at: 0 }));
    }
    read_pattern(rest)
}

// Reads the symbols before the blocks: the head, the vectors' codes and the pattern.
#[tactic(auto, unfolding(crate::specs::Macroblock::macroblock_symbols_of))]
pub fn read_macroblock_symbols(
    body: &[u8],
    context: MacroblockContext,
) -> Result<(MacroblockSymbols, Cursor), Refusal>
    ensures { ParsesAs (macroblock_symbols_of context) body.now result }
{
    let (head, after_head) = macroblock_head::read_head(body, context.head)?;
    let head_end = after_head.at;
    let rest = &body[head_end..];
    let (vectors, after_codes) = vectors::read_vectors(
        rest,
        head.macroblock_type,
        context.forward_f,
        context.backward_f,
    )?;
    let codes_end = after_codes.at;
    let (pattern, after_pattern) = read_coded_pattern(&rest[codes_end..], head.macroblock_type)?;
    let at = head_end + (codes_end + after_pattern.at);
    let symbols = MacroblockSymbols {
        macroblock_type: head.macroblock_type,
        increment: head.increment,
        scale: head.scale,
        forward: vectors.forward,
        backward: vectors.backward,
        pattern,
    };
    Ok((symbols, Cursor { at }))
}

// Reads the blocks of a macroblock into an array of zeros, and their marks; no byte may be left (6). `scale` and `dc` are those that apply
// to it.
// Not inlined: what it keeps on the stack is gone while a block is transformed.
#[inline(never)]
pub fn read_blocks_to_end<'m>(
    rest: &[u8],
    symbols: MacroblockSymbols,
    scale: u8,
    dc: DcPasts,
    intra: &'m [u8; 64],
    non_intra: &'m [u8; 64],
    coefficients: &mut [i16; 384],
    marks: &mut [u64; 6],
) -> Result<(DcPasts, Cursor), Refusal>
    requires { LegalDcPasts dc × (scale ≤ 31) × (coefficients.old ≡ replicate (6 * 64) (pos 0)) × (marks.old ≡ replicate 6 0) }
    ensures parses_as { ParsesAs (decoded_to_end_of symbols scale (matrices_of intra.now non_intra.now) dc) rest.now (decoded_blocks_result result coefficients.new) }
    ensures blocks_marked { BlocksMarked coefficients.new marks.new }
{
    let is_intra = macroblock_type::has_part(symbols.macroblock_type, INTRA);
    let coding = BlocksCoding {
        pattern: symbols.pattern,
        intra: is_intra,
        scale,
    };
    let matrix = matrices::matrix_for(is_intra, intra, non_intra);
    let (pasts, end) = blocks::read_blocks(rest, dc, coding, matrix, coefficients, marks)?;
    if end.at < rest.len() {
        return Err(Refusal::BodyLength);
    }
    Ok((pasts, end))
}
