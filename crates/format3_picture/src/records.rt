// What a record does: its turn is tested, then it is applied by its kind.
ghost use Rattle.std.specs.Prelude.{◌≡◌};
ghost use Rattle.decode_idct.specs.Transform.{inverse_transform};
ghost use Rattle.decode_macroblock.specs.Compensation.{references};
ghost use Rattle.format3_picture.specs.MacroblockRecord.{outcome_of, with_applied};
ghost use Rattle.format3_picture.specs.Step.{matrix_applied, slice_started, slice_applied, record_applied};
ghost use Rattle.format3_picture.specs.Requires.{Invariant};

use crate::macroblock_record;
use crate::state::PictureState;
use decode_coefficients::matrices::Matrices;
use format3_macroblock::slice;
use format3_records::record::{MATRIX_KIND, SLICE_KIND};
use format3_records::turn;
use refusals::Refusal;
use symbols::slice::SliceHeader;

// Applies a matrix record: marks its matrix as loaded.
#[tactic(auto, unfolding(crate::specs::Step::matrix_applied))]
fn apply_matrix(picture: PictureState, body: &[u8]) -> Result<PictureState, Refusal>
    ensures { result ≡ outcome_of (matrix_applied picture body.now) }
{
    format3_matrices::matrix_verdict(body, picture.loaded)?;
    Ok(PictureState {
        loaded: format3_matrices::mark_loaded(body, picture.loaded),
        turn: turn::turn_after(MATRIX_KIND, false),
        ..picture
    })
}

// Starts a slice, which must be at the next address (11).
#[tactic(auto, unfolding(crate::specs::Step::slice_started))]
fn start_slice(picture: PictureState, start: SliceHeader) -> Result<PictureState, Refusal>
    ensures { result ≡ outcome_of (slice_started picture start) }
{
    if usize::from(start.start) != picture.next {
        return Err(Refusal::SliceStart);
    }
    Ok(PictureState {
        turn: turn::turn_after(SLICE_KIND, false),
        slice: decode_state::slice::after_reset(picture.slice, start.scale),
        ..picture
    })
}

// Applies a slice record.
fn apply_slice(picture: PictureState, body: &[u8]) -> Result<PictureState, Refusal>
    ensures { result ≡ outcome_of (slice_applied picture body.now) }
{
    let start = slice::read_slice_record(body)?;
    start_slice(picture, start)
}

// Applies a record: its turn (5), then its kind.
#[tactic(auto, unfolding(crate::specs::Step::record_applied_refusing))]
pub(crate) fn apply_record(
    picture: PictureState,
    kind: u8,
    body: &[u8],
    matrices: &Matrices,
    forward: &[u8],
    backward: &[u8],
    output: &mut [u8],
) -> Result<PictureState, Refusal>
    requires { Invariant picture forward.now backward.now output.old }
    ensures value { result ≡ outcome_of (record_applied matrices.now picture kind body.now) }
    ensures output_after { output.new ≡ with_applied inverse_transform (references forward.now backward.now) picture (record_applied matrices.now picture kind body.now) output.old }
{
    if !turn::in_turn(picture.turn, kind) {
        return Err(Refusal::OutOfTurn);
    }
    match kind {
        MATRIX_KIND => apply_matrix(picture, body),
        SLICE_KIND => apply_slice(picture, body),
        _ => macroblock_record::apply_macroblock(
            picture, body, matrices, forward, backward, output,
        ),
    }
}
