// Slice and macroblock records of Format 3 (kinds 3 and 4), read into symbols; levels are scaled as they are read.
#![tactic(auto)]

pub mod blocks;
pub mod difference;
mod level_coding;
pub mod levels;
pub mod macroblock;
pub mod macroblock_head;
pub mod pairs;
pub mod slice;
mod tested;
pub mod vector_codes;
pub mod vectors;
