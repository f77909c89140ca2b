// Records written and read back: writer and reader undo one another, the strict reader reads from the records of slices exactly these
// slices, and an accepted raw slice is written as such records: definitions (specs/), laws (proofs/). No code.
#![tactic(auto)]
