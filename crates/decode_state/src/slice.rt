// The state of a slice, by value, and lent to a thin `reset` and a thin `update`.
ghost use Rattle.std.specs.Prelude.{◌≡◌};
ghost use Rattle.decode_state.specs.State.{reset_slice};
ghost use Rattle.decode_state.specs.Slice.{slice_after};
ghost use Rattle.decode_state.specs.Requires.{Updatable};

use crate::state::SliceState;
use crate::{state, vectors};
use decode_coefficients::macroblock;
use decode_coefficients::macroblock::SymbolsWithDc;
use symbols::header::Header;
use symbols::macroblock_type;
use symbols::macroblock_type::INTRA;

// The state after a macroblock.
fn slice_after(slice: SliceState, header: Header, macroblock: SymbolsWithDc) -> SliceState
    requires { Updatable header macroblock slice }
    ensures { result ≡ slice_after header macroblock slice }
{
    let symbols = macroblock.symbols;
    let dc = macroblock.dc;
    let kept = slice.pasts;
    let scale = macroblock::scale_after(slice.scale, symbols);
    let pasts = vectors::next_vector_pasts(header, symbols, kept);
    let motion = vectors::own_motion(header, symbols.macroblock_type, pasts);
    let intra = macroblock_type::has_part(symbols.macroblock_type, INTRA);
    SliceState {
        scale,
        dc,
        pasts,
        motion,
        intra,
        first: false,
    }
}

// Thin: stores the state at a slice's start over the lent one.
fn reset(state: &mut SliceState, scale: u8)
    ensures { state.new ≡ reset_slice scale }
{
    *state = state::reset_slice(scale);
}

// Thin: copies the lent state out, updates it for a macroblock, and stores it back.
fn update(state: &mut SliceState, header: Header, macroblock: SymbolsWithDc)
    requires { Updatable header macroblock state.old }
    ensures { state.new ≡ slice_after header macroblock state.old }
{
    *state = slice_after(*state, header, macroblock);
}

// `reset` for callers that hold the state by value.
pub fn after_reset(slice: SliceState, scale: u8) -> SliceState
    ensures { result ≡ reset_slice scale }
{
    let mut state = slice;
    reset(&mut state, scale);
    state
}

// `update` for callers that hold the state by value.
pub(crate) fn after_update(
    slice: SliceState,
    header: Header,
    macroblock: SymbolsWithDc,
) -> SliceState
    requires { Updatable header macroblock slice }
    ensures { result ≡ slice_after header macroblock slice }
{
    let mut state = slice;
    update(&mut state, header, macroblock);
    state
}
