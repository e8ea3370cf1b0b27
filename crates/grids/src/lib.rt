// Grids: lists of rows. Definitions (specs/) and their laws (proofs/) that the other crates cite; no code.
#![tactic(auto)]
