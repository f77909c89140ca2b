// Fields and records of Format 3, written into a lent buffer that may be too short.
#![tactic(auto)]

pub mod fields;
pub mod records;
