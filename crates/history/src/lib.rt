// What a reader of the journal is promised over every list of calls. There is no code here: the promise is `Demand3` in
// specs/Demand.antt, about the definitions that the contracts of `volume`, `journal_post` and `journal_read` cite, and its
// proof is `demand3` in proofs/Whole.antt.
#![tactic(auto)]
