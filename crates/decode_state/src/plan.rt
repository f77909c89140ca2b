// The plan of a macroblock: the skipped macroblocks, its own address and motion, and the slice's state after it.
ghost use Rattle.std.specs.Prelude.{◌≡◌};
ghost use Rattle.decode_state.specs.Plan.{skip_motion, plan_of, with_dc};
ghost use Rattle.decode_state.specs.Requires.{Plannable};

use crate::state::SliceState;
use crate::{slice, state};
use decode_coefficients::dc::DcPasts;
use decode_coefficients::macroblock::SymbolsWithDc;
use decode_macroblock::compensation::Motion;
use symbols::header::{Header, P_PICTURE};

// What a macroblock will write and change, worked out before it does so.
#[derive(Clone, Copy)]
pub struct Plan {
    // The skipped macroblocks before it: the address of the first, their number, and their motion.
    pub first: usize,
    pub skipped: usize,
    pub skip_motion: Motion,
    // Its own address and motion.
    pub address: usize,
    pub motion: Motion,
    // Which of its blocks are coded.
    pub pattern: u8,
    // The slice's state after it.
    pub slice: SliceState,
}

// A skipped macroblock's motion: P copies with vector 0, B repeats the last macroblock's.
#[tactic(auto, unfolding(crate::specs::Plan::skip_motion))]
fn skip_motion(coding: u8, last: Motion) -> Motion
    ensures { result ≡ skip_motion coding last }
{
    if coding == P_PICTURE {
        return state::still_motion();
    }
    last
}

// The plan for a macroblock's symbols.
#[tactic(auto, unfolding(crate::specs::Plan::plan_of))]
pub fn make_plan(header: Header, next: usize, before: SliceState, macroblock: SymbolsWithDc) -> Plan
    requires { Plannable header next before macroblock }
    ensures { result ≡ plan_of header next before macroblock }
{
    let symbols = macroblock.symbols;
    let skip = skip_motion(header.coding_type, before.motion);
    let skipped = usize::from(symbols.increment) - 1;
    let address = next + skipped;
    let slice = slice::after_update(before, header, macroblock);
    let motion = slice.motion;
    Plan {
        first: next,
        skipped,
        skip_motion: skip,
        address,
        motion,
        pattern: symbols.pattern,
        slice,
    }
}

// The plan with the DC pasts that the blocks leave.
pub fn with_dc(plan: Plan, dc: DcPasts) -> Plan
    ensures { result ≡ with_dc plan dc }
{
    let slice = plan.slice;
    Plan {
        slice: SliceState { dc, ..slice },
        ..plan
    }
}
