// A slice's state between macroblocks, and the plan that a macroblock's symbols give.
#![tactic(auto)]

pub mod plan;
pub mod slice;
pub mod state;
pub mod vectors;
