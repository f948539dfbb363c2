#![tactic(auto)]

// Theorems only: document 01, 'Strength of the contracts'. No second answer meets a contract, specs/Once.antt; the useless
// kernels that the paper names meet none, specs/Useless.antt. specs/Strength.antt says what they are.
