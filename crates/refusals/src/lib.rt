// What holds of every refusal: it reports no bytes and changes nothing; and only the region query warns. There is no code here: the
// promise is `Refusals` in specs/Refusal.antt, about the definitions that the contracts of the controls and calls cite, and its proof is
// `refusals` in proofs/Whole.antt.
#![tactic(auto)]
