// Coefficients from levels (document 01, "Coefficients"): scaling, DC predictors, the sixty-four of a block, the six blocks of a macroblock.
#![tactic(auto)]

pub mod block;
pub mod dc;
pub mod macroblock;
pub mod marks;
pub mod matrices;
pub mod scaling;
