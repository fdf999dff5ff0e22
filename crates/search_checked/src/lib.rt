// No code: that the checker answers 0 to the result of every search that answered 0, and that a call
// for its pages lays it out, as theorems of the calls' contracts. The claims are specs/Checked.antt,
// the theorems `search_checked` and `search_laid_out` in proofs/Theorem.antt.
#![tactic(auto)]
