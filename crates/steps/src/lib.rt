#![tactic(auto)]

// Definitions and laws only: the steps of a tick over the arrays of numbers (specs/Flat.antt). The crates step_events,
// step_deadlines, step_releases and step_running have the code, and writes what they share; the crate whole shows that these are
// document 01's steps.
