// The order of records: which kind may come next.
ghost use Rattle.std.specs.Prelude.{◌≡◌};
ghost use Rattle.format3_records.specs.Turn.{in_turn, turn_after};

use crate::record::{HEADER_KIND, MACROBLOCK_KIND, MATRIX_KIND, SLICE_KIND};

// How far the records have got.
#[derive(Clone, Copy)]
pub enum Turn {
    // No record has been read.
    Start,
    // The header has been read, but no slice.
    Header,
    // A slice has been read, but no macroblock since.
    Slice,
    // A macroblock has been read since the last slice.
    Macroblock,
    // The last macroblock has been read.
    Complete,
}

// Whether a record of this kind may come now.
pub fn in_turn(turn: Turn, kind: u8) -> bool
    ensures { result ≡ in_turn turn kind }
{
    match turn {
        Turn::Start => kind == HEADER_KIND,
        Turn::Header => kind == MATRIX_KIND || kind == SLICE_KIND,
        Turn::Slice => kind == MACROBLOCK_KIND,
        Turn::Macroblock => kind == SLICE_KIND || kind == MACROBLOCK_KIND,
        Turn::Complete => false,
    }
}

// The turn after a record of this kind; `complete` says whether every macroblock is made.
pub fn turn_after(kind: u8, complete: bool) -> Turn
    ensures { result ≡ turn_after kind complete }
{
    match kind {
        SLICE_KIND => Turn::Slice,
        MACROBLOCK_KIND if complete => Turn::Complete,
        MACROBLOCK_KIND => Turn::Macroblock,
        _ => Turn::Header,
    }
}
