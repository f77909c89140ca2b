// The symbols of a picture: every syntax is read into them, and every picture is made from them.
#![tactic(auto)]

pub mod header;
pub mod macroblock;
pub mod macroblock_type;
pub mod pair;
pub mod pattern;
pub mod size;
pub mod slice;
pub mod vector_codes;
