#![tactic(auto)]

// Definitions and theorems only: document 01's 'One tick' (specs/Turns.antt has what a task does in its turn of a step,
// specs/Tick.antt the steps and the tick).
