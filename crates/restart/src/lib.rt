// What a restart keeps of a journal. There is no code here: the promises are `Restart` in specs/Restart.antt and `Across` in
// specs/Across.antt, about the definitions that the contracts of `image_save` and `image_load` cite and the history of a journal. Their
// proofs are `restart` in proofs/Whole.antt and `across` in proofs/Across.antt.
#![tactic(auto)]
