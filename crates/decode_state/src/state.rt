// A slice's state between macroblocks.
ghost use Rattle.std.specs.Prelude.{◌≡◌};
ghost use Rattle.decode_state.specs.State.{zero_vector_pasts, still_motion, reset_slice};

use decode_coefficients::dc::DcPasts;
use decode_macroblock::compensation::{Motion, Vector};

// The vector predictors: the next vector differences are added to them.
#[derive(Clone, Copy)]
pub struct VectorPasts {
    pub forward: Vector,
    pub backward: Vector,
}

// The state that a slice's start resets.
#[derive(Clone, Copy)]
pub struct SliceState {
    pub scale: u8,
    pub dc: DcPasts,
    pub pasts: VectorPasts,
    // The last macroblock's directions and vectors for use, and whether it was intra.
    pub motion: Motion,
    pub intra: bool,
    // Whether no macroblock of the slice has been read yet.
    pub first: bool,
}

// Both vectors 0: the pasts at a slice's start and after intra.
pub(crate) fn zero_vector_pasts() -> VectorPasts
    ensures { result ≡ zero_vector_pasts }
{
    VectorPasts {
        forward: Vector::ZERO,
        backward: Vector::ZERO,
    }
}

// Forward prediction with vector 0: a skipped macroblock's motion in a P picture.
pub(crate) fn still_motion() -> Motion
    ensures { result ≡ still_motion }
{
    Motion {
        forward: Some(Vector::ZERO),
        backward: None,
    }
}

// The state at a slice's start.
pub fn reset_slice(scale: u8) -> SliceState
    ensures { result ≡ reset_slice scale }
{
    SliceState {
        scale,
        dc: DcPasts::reset(),
        pasts: zero_vector_pasts(),
        motion: Motion::NONE,
        intra: false,
        first: true,
    }
}
