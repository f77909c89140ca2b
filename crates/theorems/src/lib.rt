// What is proved, on one page: a file for each demand, for each request, and for what document 01 says beyond the demands. Each has the demanded
// sentences and their statements (specs/), and proofs that cite the laws (proofs/). No code.
#![tactic(auto)]
