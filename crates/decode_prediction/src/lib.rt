// Prediction from a plane of a reference picture: the test that a vector fits, half-pel means and whole-pel copies.
#![tactic(auto)]

pub mod fit;
pub mod prediction;
