// Whether a macroblock's vectors stay inside the references, and if not, which direction fails first.
ghost use Rattle.std.specs.Prelude.{◌≡◌, ◌+◌, ◌≤◌, ◌<◌, IfSome};
ghost use Rattle.symbols.specs.Requires.{SizeWithin};
ghost use Rattle.symbols.specs.Size.{max_macroblocks, macroblock_count};
ghost use Rattle.decode_vectors.specs.Vector.{max_vector};
ghost use Rattle.decode_macroblock.specs.Requires.{Inside, VectorWithin, MotionWithin};
ghost use Rattle.decode_macroblock.specs.Fit.{direction_fits, fit_of, first_misfit};

use crate::compensation::{Motion, Vector};
use crate::location;
use crate::location::MacroblockPosition;
use decode_prediction::fit;
use symbols::size::PictureSize;

// The direction of a vector that doesn't fit.
#[derive(Clone, Copy, Debug, PartialEq, Eq)]
pub enum Direction {
    Forward,
    Backward,
}

// An unused direction always fits.
#[tactic(auto, unfolding(crate::specs::Fit::direction_fits))]
fn direction_fits(position: MacroblockPosition, vector: Option<Vector>) -> bool
    requires { Inside position × IfSome vector (VectorWithin max_vector) }
    ensures { result ≡ direction_fits position vector }
{
    let Some(vector) = vector else {
        return true;
    };
    let width = position.size.width;
    let height = position.size.height;
    fit::macroblock_fits(
        width,
        height,
        position.column,
        position.row,
        vector.right,
        vector.down,
    )
}

// Tests forward before backward.
#[tactic(auto, unfolding(crate::specs::Fit::fit_of))]
pub fn fit_of(size: PictureSize, address: usize, motion: Motion) -> Result<(), Direction>
    requires { SizeWithin max_macroblocks size × (address < macroblock_count size) × MotionWithin max_vector motion }
    ensures { result ≡ fit_of size address motion }
{
    let position = location::macroblock_position(size, address);
    if !direction_fits(position, motion.forward) {
        return Err(Direction::Forward);
    }
    if !direction_fits(position, motion.backward) {
        return Err(Direction::Backward);
    }
    Ok(())
}

// The first misfit among `skipped` macroblocks from address `first` on.
#[tactic(auto, unfolding(crate::specs::Fit::first_misfit))]
pub fn first_misfit(
    size: PictureSize,
    first: usize,
    skipped: usize,
    motion: Motion,
) -> Result<(), Direction>
    requires { SizeWithin max_macroblocks size × (first + skipped ≤ macroblock_count size) × MotionWithin max_vector motion }
    ensures { result ≡ first_misfit size first skipped motion }
{
    for k in 0..skipped {
        fit_of(size, first + k, motion)?;
    }
    Ok(())
}
