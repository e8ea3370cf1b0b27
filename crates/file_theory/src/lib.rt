// Multi-size files as lists of bytes: what is refused, accepted, offered and shown (specs/), and the demands on them (proofs/).
#![tactic(auto)]
