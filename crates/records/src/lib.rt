// What a run of bytes holds as records, one after the other: specs/Records.antt, with its laws in proofs/. There is no code here; a
// reply and the kept bytes of a ring are such runs.
#![tactic(auto)]
