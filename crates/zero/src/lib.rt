#![tactic(auto)]

// Theorems only: the zero-time reading of document 01, and that a run without a miss is it. specs/Zero.antt has the words of
// the statements, proofs/Theorems.antt the statements.
