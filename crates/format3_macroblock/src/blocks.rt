// The six blocks of a macroblock, each stored in an array of 384 coefficients once it is whole.
ghost use Rattle.std.specs.Prelude.{◌≡◌, ◌*◌, ◌<◌, pos, replicate};
ghost use Rattle.decode_coefficients.specs.Marks.{BlocksMarked};
ghost use Rattle.format3_records.specs.Reader.{ParsesAs};
ghost use Rattle.format3_macroblock.specs.Requires.{LegalDcPasts, BlocksCodingWithin};
ghost use Rattle.format3_macroblock.specs.Decoding.{block_into, progress_result, decoded_blocks_of, decoded_blocks_result};

use crate::level_coding::{LevelCoding, ZigzagOrder};
use crate::{difference, levels};
use decode_coefficients::block::BlockCoding;
use decode_coefficients::dc::DcPasts;
use decode_coefficients::{block, marks};
use format3_records::field;
use format3_records::field::Cursor;
use refusals::Refusal;
use symbols::pattern;

// Which blocks of a macroblock are coded, and how their levels are scaled.
#[derive(Clone, Copy)]
pub struct BlocksCoding {
    pub pattern: u8,
    pub intra: bool,
    pub scale: u8,
}

// Reads a block if it is coded, and stores it and its marks once it is whole.
fn read_block(
    rest: &[u8],
    block: usize,
    pasts: DcPasts,
    coding: BlocksCoding,
    order: &ZigzagOrder,
    matrix: &[u8; 64],
    coefficients: &mut [i16; 384],
    marks: &mut [u64; 6],
) -> Result<(DcPasts, Cursor), Refusal>
    requires { (block < 6) × LegalDcPasts pasts × BlocksCodingWithin coding × BlocksMarked coefficients.old marks.old }
    ensures parses_as { ParsesAs (block_into coding matrix.now block (record { pasts = pasts; coefficients = coefficients.old })) rest.now (progress_result result coefficients.new) }
    ensures blocks_marked { BlocksMarked coefficients.new marks.new }
{
    if !pattern::is_coded(coding.pattern, block) {
        return Ok((pasts, Cursor { at: 0 }));
    }
    let intra = coding.intra;
    let (dc, after_dc) = difference::read_dc(rest, pasts.of_block(block), intra)?;
    let one = LevelCoding {
        scaling: BlockCoding {
            intra,
            scale: coding.scale,
        },
        matrix,
        order,
    };
    let left = field::after(rest, after_dc.at);
    let read = levels::read_levels(left, one, block::dc_block(dc), marks::dc_marks(dc));
    let end = read.answer?;
    let values = read.block;
    block::store_block(coefficients, block, values);
    marks[block] = read.marks;
    let at = after_dc.at + end.at;
    Ok((pasts.after_block(intra, block, dc), Cursor { at }))
}

// Reads the six blocks into an array of zeros, and their marks.
pub(crate) fn read_blocks(
    rest: &[u8],
    pasts: DcPasts,
    coding: BlocksCoding,
    matrix: &[u8; 64],
    coefficients: &mut [i16; 384],
    marks: &mut [u64; 6],
) -> Result<(DcPasts, Cursor), Refusal>
    requires { LegalDcPasts pasts × BlocksCodingWithin coding × (coefficients.old ≡ replicate (6 * 64) (pos 0)) × (marks.old ≡ replicate 6 0) }
    ensures parses_as { ParsesAs (decoded_blocks_of coding matrix.now pasts) rest.now (decoded_blocks_result result coefficients.new) }
    ensures blocks_marked { BlocksMarked coefficients.new marks.new }
{
    let order = ZigzagOrder::new();
    let mut running = pasts;
    let mut at: usize = 0;
    for block in 0..6 {
        let (next, cursor) = read_block(
            &rest[at..],
            block,
            running,
            coding,
            &order,
            matrix,
            coefficients,
            marks,
        )?;
        running = next;
        at += cursor.at;
    }
    Ok((running, Cursor { at }))
}
