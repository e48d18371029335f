// Proofs of functions that the borrow checker does not cover, as far as they are the same for any function: what several crates'
// proofs by hand share. There is no code here.
#![tactic(auto)]
