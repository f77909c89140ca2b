// A macroblock of a picture: the locations of its blocks, their prediction, and writing all six into the lent output.
#![tactic(auto)]

pub mod block;
pub mod compensation;
pub mod fit;
pub mod location;
pub mod residue;
pub mod write;
