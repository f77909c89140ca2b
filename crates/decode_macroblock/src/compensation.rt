// Motion compensation: the prediction of a block from the lent references.
ghost use Rattle.std.specs.Prelude.{◌≡◌, ◌*◌, ◌≤◌};
ghost use Rattle.decode_vectors.specs.Vector.{max_vector};
ghost use Rattle.decode_macroblock.specs.Requires.{VectorWithin, Pointing, PelsReadable, Readable, Predictable};
ghost use Rattle.decode_macroblock.specs.Compensation.{vector_for, is_whole_pel, half_pels, predicted_from, copied_from, predicted_block};

use crate::location::BlockLocation;
use decode_prediction::{fit, prediction};
use decode_vectors::vector;

// A vector for use, in half pels: already doubled if the full-pel flag is set.
#[derive(Clone, Copy)]
pub struct Vector {
    pub right: i32,
    pub down: i32,
}

impl Vector {
    pub const ZERO: Vector = Vector { right: 0, down: 0 };
}

// The vectors of the directions that a macroblock is predicted from; with neither direction it is intra.
#[derive(Clone, Copy)]
pub struct Motion {
    pub forward: Option<Vector>,
    pub backward: Option<Vector>,
}

impl Motion {
    // No prediction.
    pub const NONE: Motion = Motion {
        forward: None,
        backward: None,
    };
}

// The vector for a block's plane: halved for chroma.
#[tactic(auto, unfolding(crate::specs::Compensation::vector_for))]
pub(crate) fn vector_for(block: usize, vector: Vector) -> Vector
    requires { VectorWithin max_vector vector }
    ensures { result ≡ vector_for block vector }
{
    if block < 4 {
        return vector;
    }
    let right = vector::chroma_vector(vector.right);
    let down = vector::chroma_vector(vector.down);
    Vector { right, down }
}

// The coordinates of a block in a plane, in half pels.
#[derive(Clone, Copy)]
pub struct HalfPels {
    pub px: usize,
    pub py: usize,
}

// Where a vector for the block's plane points.
fn half_pels(location: BlockLocation, vector: Vector) -> HalfPels
    requires { Pointing location vector }
    ensures { result ≡ half_pels location vector }
{
    let px = fit::half_pel_coordinate(location.x, vector.right);
    let py = fit::half_pel_coordinate(location.y, vector.down);
    HalfPels { px, py }
}

// The prediction from one reference, with the vector for the block's plane.
#[tactic(auto, unfolding(crate::specs::Compensation::predicted_from))]
fn predict_block_from(reference: &[u8], location: BlockLocation, vector: Vector) -> [u8; 64]
    requires { Readable location vector reference.now }
    ensures { result ≡ predicted_from reference.now location vector }
{
    let from = location.from;
    let to = location.to;
    let at = half_pels(location, vector);
    prediction::predict_block(
        &reference[from..to],
        location.stride,
        location.lines,
        at.px,
        at.py,
    )
}

// Whether a vector points to whole pels.
pub(crate) fn is_whole_pel(vector: Vector) -> bool
    requires { VectorWithin max_vector vector }
    ensures { result ≡ is_whole_pel vector }
{
    vector.right % 2 == 0 && vector.down % 2 == 0
}

// The SIDE by SIDE pels that a vector for the plane points to: a plain copy from whole pels, no averaging.
#[tactic(auto, unfolding(crate::specs::Compensation::copied_from))]
pub(crate) fn copy_from<const SIDE: usize, const PELS: usize>(
    reference: &[u8],
    location: BlockLocation,
    vector: Vector,
) -> [u8; PELS]
    requires sides { (SIDE * SIDE ≡ PELS) × (SIDE ≤ 16) }
    requires readable { PelsReadable SIDE location vector reference.now }
    ensures { result ≡ copied_from SIDE reference.now location vector }
{
    let from = location.from;
    let to = location.to;
    let at = half_pels(location, vector);
    prediction::copy_pels::<SIDE, PELS>(
        &reference[from..to],
        location.stride,
        location.lines,
        at.px,
        at.py,
    )
}

// The prediction of a block from the directions in use.
#[tactic(auto, unfolding(crate::specs::Compensation::predicted_block))]
pub(crate) fn predict(
    forward: &[u8],
    backward: &[u8],
    motion: Motion,
    location: BlockLocation,
    block: usize,
) -> [u8; 64]
    requires { Predictable motion location block forward.now backward.now }
    ensures { result ≡ predicted_block forward.now backward.now motion location block }
{
    match (motion.forward, motion.backward) {
        (Some(forward_vector), Some(backward_vector)) => {
            let before = predict_block_from(forward, location, vector_for(block, forward_vector));
            let after = predict_block_from(backward, location, vector_for(block, backward_vector));
            prediction::mean_of_both(before, after)
        }
        (Some(vector), None) => predict_block_from(forward, location, vector_for(block, vector)),
        (None, Some(vector)) => predict_block_from(backward, location, vector_for(block, vector)),
        (None, None) => [0u8; 64],
    }
}
