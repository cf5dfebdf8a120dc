#![tactic(auto)]

// Bounds for exp and ln by their power series: lemmas, no code.
