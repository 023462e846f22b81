// GroupOrdering::release of presentation.rs as a model in definitions (specs/Source.antt), over source_model's history, and the
// proof that the subscriber turn's definitions answer the same (specs/Claim.antt, proofs/Alike.antt). There is no code here.
#![tactic(auto)]
