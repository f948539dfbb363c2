#![tactic(auto)]

// Theorems only: document 01's marked examples P1 to P11, from the bytes of plan and events to the lines that are printed.
// specs/Marked.antt has the list, specs/Theorems.antt what is proved of it.
