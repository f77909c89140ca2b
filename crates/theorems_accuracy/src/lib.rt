// The accuracy of the inverse transform (demand 3) and the ends around the cosines: definitions (specs/), laws (proofs/). No code.
#![tactic(auto)]
