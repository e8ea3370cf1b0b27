// What the programs write for an input: Netpbm pictures and the output of `seams` and `fit` (specs/), and what the two give
// together (proofs/). The code is in `program_filters`.
#![tactic(auto)]
