// The map and the widths. Definitions (specs/) and their laws (proofs/), over any way of choosing a seam; no code.
#![tactic(auto)]
