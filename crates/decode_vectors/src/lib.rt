// Motion vectors decoded from their codes.
#![tactic(auto)]

pub mod vector;
