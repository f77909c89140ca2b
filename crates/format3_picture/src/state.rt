// What the reader keeps from record to record.
ghost use Rattle.std.specs.Prelude.{◌≡◌};
ghost use Rattle.format3_picture.specs.State.{start_state};

use decode_state::state;
use decode_state::state::SliceState;
use format3_matrices::Loaded;
use format3_records::turn::Turn;
use symbols::header::Header;

// The state of a picture between records.
#[derive(Clone, Copy)]
pub struct PictureState {
    pub header: Header,
    // Which quantizer matrices have been loaded.
    pub loaded: Loaded,
    pub turn: Turn,
    // The address after the last macroblock's, the number of macroblocks written, and the rows that the transform worked for them.
    pub next: usize,
    pub made: usize,
    pub rows: usize,
    pub slice: SliceState,
}

// The state after the header.
pub(crate) fn start_state(header: Header) -> PictureState
    ensures { result ≡ start_state header }
{
    PictureState {
        header,
        loaded: Loaded {
            intra: false,
            non_intra: false,
        },
        turn: Turn::Header,
        next: 0,
        made: 0,
        rows: 0,
        slice: state::reset_slice(1),
    }
}
