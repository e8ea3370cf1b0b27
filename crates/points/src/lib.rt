// The worked points that are proved: one table (proofs/Points.antt); no code.
#![tactic(auto)]
