// Paths: cheapest connected paths through a grid. Definitions (specs/) and their laws (proofs/) that the other crates cite; no code.
#![tactic(auto)]
