// CoherentHold of presentation.rs as a model in definitions, function by function (specs/Source.antt), and the proof that the
// gate's definitions, and so its code, answer the same (specs/Claim.antt, proofs/Alike.antt). There is no code here.
#![tactic(auto)]
