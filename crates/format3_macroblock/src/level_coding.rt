// How the levels of a block become coefficients: scaled, and stored in zigzag order.
ghost use Rattle.std.specs.Prelude.{◌≡◌};
ghost use Rattle.tables.specs.Tables.{zigzag};
ghost use Rattle.decode_coefficients.specs.Requires.{BlockCodingWithin};

use decode_coefficients::block::BlockCoding;

// The zigzag order as a table, made once for the blocks of a macroblock: the raster index of each position.
#[derive(Clone, Copy)]
pub(crate) struct ZigzagOrder {
    pub raster: [u8; 64],
    ghost is_zigzag: { raster ≡ zigzag },
}

impl ZigzagOrder {
    pub fn new() -> ZigzagOrder {
        let raster = tables::zigzag_table();
        ZigzagOrder { raster }
    }
}

// How the levels of a block are scaled, the matrix of their weights, and the order in which they land.
#[derive(Clone, Copy)]
pub(crate) struct LevelCoding<'a> {
    pub scaling: BlockCoding,
    pub matrix: &'a [u8; 64],
    pub order: &'a ZigzagOrder,
    ghost scale_within: { BlockCodingWithin scaling },
}
