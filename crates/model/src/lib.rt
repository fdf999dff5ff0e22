// No code: what a hop map is, what playing a schedule means (specs/), and demand 3 as a theorem of it
// (proofs/). The code that is proved equal to it is in the crates `workers`, `opening`, `engine` and
// `search`.
#![tactic(auto)]
