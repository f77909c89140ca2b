// Raw slices: the bits of one slice, read and written as Format 3 records.
#![tactic(auto)]

pub mod coded_blocks;
pub mod coded_pairs;
pub mod entry;
pub mod head;
pub mod macroblock;
pub mod macroblocks;
pub mod slice;
pub mod slice_head;
pub mod vectors;
pub mod write_answer;
