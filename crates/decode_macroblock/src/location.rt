// The locations of a macroblock's blocks in a picture, and reading and putting a block there.
ghost use Rattle.std.specs.Prelude.{◌≡◌, ◌*◌, ◌≤◌, ◌<◌, length};
ghost use Rattle.symbols.specs.Requires.{SizeWithin};
ghost use Rattle.symbols.specs.Size.{max_macroblocks};
ghost use Rattle.decode_macroblock.specs.Location.{macroblock_position, first_location, block_location, read_at, put_pels_at};
ghost use Rattle.decode_macroblock.specs.Requires.{Inside, PelsInside, BlockInside};

use crate::block;
use decode_prediction::prediction;
use symbols::size::PictureSize;

// A macroblock's column and row in a picture of this size.
#[derive(Clone, Copy)]
pub struct MacroblockPosition {
    pub size: PictureSize,
    pub column: usize,
    pub row: usize,
}

// A block's location: the part of the picture that is its plane, the length and number of the plane's lines, and the block's column and line.
#[derive(Clone, Copy)]
pub struct BlockLocation {
    pub from: usize,
    pub to: usize,
    pub stride: usize,
    pub lines: usize,
    pub x: usize,
    pub y: usize,
}

pub(crate) fn macroblock_position(size: PictureSize, address: usize) -> MacroblockPosition
    requires { SizeWithin max_macroblocks size }
    ensures { result ≡ macroblock_position size address }
{
    let column = address % size.width;
    let row = address / size.width;
    MacroblockPosition { size, column, row }
}

// A macroblock's first pel, in the plane from `from` to `to` with `side` by `side` pels a macroblock.
fn first_location(
    position: MacroblockPosition,
    side: usize,
    from: usize,
    to: usize,
) -> BlockLocation
    requires { Inside position × (side ≤ 16) }
    ensures { result ≡ first_location position side from to }
{
    BlockLocation {
        from,
        to,
        stride: side * position.size.width,
        lines: side * position.size.height,
        x: side * position.column,
        y: side * position.row,
    }
}

// The location of a block: 0 to 3 are Y, 4 is Cb and 5 is Cr. Y is tested first because most blocks are Y.
#[tactic(auto, unfolding(crate::specs::Location::block_location))]
pub(crate) fn block_location(position: MacroblockPosition, block: usize) -> BlockLocation
    requires { Inside position × (block < 6) }
    ensures { result ≡ block_location position block }
{
    let macroblocks = position.size.width * position.size.height;
    let cb = 256 * macroblocks;
    let cr = 320 * macroblocks;
    if block < 4 {
        let luma = first_location(position, 16, 0, cb);
        return BlockLocation {
            x: luma.x + 8 * (block % 2),
            y: luma.y + 8 * (block / 2),
            ..luma
        };
    }
    if block == 4 {
        return first_location(position, 8, cb, cr);
    }
    first_location(position, 8, cr, 384 * macroblocks)
}

// The block at a location.
pub(crate) fn read(picture: &[u8], location: BlockLocation) -> [u8; 64]
    requires { BlockInside location (length picture.now) }
    ensures { result ≡ read_at location picture.now }
{
    let from = location.from;
    let to = location.to;
    let lines = location.y + 8;
    let px = 2 * location.x;
    let py = 2 * location.y;
    prediction::copy_pels::<8, 64>(&picture[from..to], location.stride, lines, px, py)
}

// Puts SIDE by SIDE pels at a location, by lending on the part of the output that is its plane.
#[tactic(auto, unfolding(crate::specs::Location::put_pels_at, math::specs::Part::part))]
pub(crate) fn put<const SIDE: usize, const PELS: usize>(
    output: &mut [u8],
    location: BlockLocation,
    pels: [u8; PELS],
)
    requires sides { (SIDE * SIDE ≡ PELS) × (SIDE ≤ 16) }
    requires inside { PelsInside SIDE location (length output.old) }
    ensures { output.new ≡ put_pels_at SIDE location pels.entry output.old }
{
    let from = location.from;
    let to = location.to;
    block::put_pels::<SIDE, PELS>(
        &mut output[from..to],
        location.stride,
        location.x,
        location.y,
        pels,
    );
}
