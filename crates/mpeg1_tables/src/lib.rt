// The words of Annex B as a look-up table: the code that each run of eight bits gives.
#![tactic(auto)]

pub mod code;
mod entries;
pub mod table;
pub mod word_list;
