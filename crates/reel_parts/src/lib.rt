// Splits a reel into its files, and keeps the reference pictures that later files need.
#![tactic(auto)]

pub mod part;
pub mod references;
