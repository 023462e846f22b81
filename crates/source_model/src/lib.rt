// group_order.rs of the source as a model in definitions, function by function (specs/), and the proof that on every list of
// calls it answers as document 01's definitions do (proofs/Steps.antt, source_alike). There is no code here.
#![tactic(auto)]
