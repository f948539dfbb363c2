#![tactic(auto)]

// Definitions and theorems only: lists that are read off by a rule, and what several crates need of lists and tests.
