// The start of a Format 3 file: its version, the header's record (kind 1), the reader's limit, and the buffer lengths that the header requires
// of the caller.
#![tactic(auto)]

pub mod file_start;
pub mod header;
pub mod lengths;
