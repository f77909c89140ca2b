// Integers and lists by index: definitions that contracts cite (specs/) and their laws (proofs/). No code.
#![tactic(auto)]
