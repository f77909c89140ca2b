// Which refusals apply to a file (specs/), and the laws behind demands 1 and 2: when a picture is accepted, what a refused one holds, which bytes are
// written and which stay (proofs/). No code.
#![tactic(auto)]
