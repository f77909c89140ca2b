// The strict reader: from a Format 3 file to a picture.
#![tactic(auto)]

pub mod macroblock_record;
pub mod reader;
pub mod records;
pub mod state;
