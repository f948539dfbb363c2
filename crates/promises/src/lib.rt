#![tactic(auto)]

// Theorems only: promises of document 01 to a user. specs/Promises.antt has the words of the statements, proofs/ the statements.
