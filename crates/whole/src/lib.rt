#![tactic(auto)]

// Theorems only: the steps over the arrays (steps/specs/Flat.antt) are document 01's steps over the public state
// (tick/specs/Tick.antt). specs/Whole.antt says which state the arrays hold.
