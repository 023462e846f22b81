// Every chain of the code's calls answers as group_order.rs does, as source_model has it (specs/Same.antt, proofs/Alike.antt).
// There is no code here.
#![tactic(auto)]
