// Readers of variable-length codes: macroblock and motion codes, DC sizes, coefficients, start codes and numbers.
#![tactic(auto)]

pub mod coefficient;
pub mod difference;
pub mod lookup;
pub mod reader;
pub mod slice_start;
