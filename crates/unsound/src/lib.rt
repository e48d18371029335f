// What a ring that is not sound, such as one that keeps a name that is not good, does to its journal, and how that ends. There is no code
// here: the promise is `Until` in specs/Until.antt, about the definitions that the contracts of the calls cite. Its proof is `until` in
// proofs/Whole.antt.
#![tactic(auto)]
