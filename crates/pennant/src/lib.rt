// No code: pennants and bags as trees (specs/) and the laws of their operations (proofs/Laws.antt).
// The crate `bag` has the code that equals them.
#![tactic(auto)]
