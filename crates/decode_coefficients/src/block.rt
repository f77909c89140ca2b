// A block of sixty-four coefficients: its DC, its levels scaled at their raster indices, and the array that holds six blocks.
ghost use Rattle.std.specs.Prelude.{◌≡◌, pos, ◌≤◌, ◌<◌};
ghost use Rattle.math.specs.Bound.{Within};
ghost use Rattle.tables.specs.Tables.{zigzag};
ghost use Rattle.symbols.specs.Pair.{last_position};
ghost use Rattle.decode_coefficients.specs.Scaling.{coefficient_of};
ghost use Rattle.decode_coefficients.specs.Requires.{BlockCodingWithin};
ghost use Rattle.decode_coefficients.specs.BlockArray.{put_block};
ghost use Rattle.decode_coefficients.specs.Block.{dc_block, raster_index, scaled_level, with_level};
ghost use Rattle.decode_coefficients.specs.Marks.{with_coefficient};

use crate::{marks, scaling};

// How the levels of a block are scaled.
#[derive(Clone, Copy)]
pub struct BlockCoding {
    pub intra: bool,
    pub scale: u8,
}

impl BlockCoding {
    // A level scaled with the weight at its raster index.
    fn scaled_level(self, level: i16, weight: u8) -> i16
        requires { Within 255 level × BlockCodingWithin self }
        ensures { result ≡ coefficient_of self.intra level (pos self.scale) (pos weight) }
    {
        scaling::scale_level(
            self.intra,
            i32::from(level),
            i32::from(self.scale),
            i32::from(weight),
        )
    }
}

// Stores a level in its block: scaled, at its raster index. `order` is the zigzag order. Answers the marks after it.
pub fn store_level(
    block: &mut [i16; 64],
    marks: u64,
    position: usize,
    level: i16,
    coding: BlockCoding,
    order: &[u8; 64],
    matrix: &[u8; 64],
) -> u64
    requires { (position ≤ last_position) × Within 255 level × BlockCodingWithin coding × (order.now ≡ zigzag) }
    ensures block_after { block.new ≡ with_level coding matrix.now (record { position = position; level = level }) block.old }
    ensures value { result ≡ with_coefficient marks (raster_index position) (scaled_level coding matrix.now (record { position = position; level = level })) }
{
    let raster = order[position] as usize;
    let scaled = coding.scaled_level(level, matrix[raster]);
    block[raster] = scaled;
    marks::with_coefficient(marks, raster, scaled)
}

// Stores a block's coefficients in the array.
#[tactic(auto, unfolding(crate::specs::BlockArray::put_block))]
pub fn store_block(coefficients: &mut [i16; 384], block: usize, values: [i16; 64])
    requires { block < 6 }
    ensures { coefficients.new ≡ put_block block values coefficients.old }
{
    let start = 64 * block;
    coefficients[start..start + 64].copy_from_slice(&values);
}

// A block before its pairs: the DC first, and zeros.
#[tactic(auto, unfolding(crate::specs::Block::dc_block))]
pub fn dc_block(dc: i16) -> [i16; 64]
    ensures { result ≡ dc_block dc }
{
    let mut block = [0; 64];
    block[0] = dc;
    block
}
