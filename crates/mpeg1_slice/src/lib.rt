// Reads the parts of a slice (ISO/IEC 11172-2, 2.4.2.7 and 2.4.2.8) that `mpeg1_reader` then turns into records.
#![tactic(auto)]

pub mod coefficient;
pub mod difference;
pub mod element;
pub mod extra;
pub mod increment;
pub mod refused;
pub mod vectors;
