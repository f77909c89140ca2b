// Format 3: the records of a file, their fields, and the order that records must follow.
#![tactic(auto)]

pub mod field;
pub mod record;
pub mod turn;
