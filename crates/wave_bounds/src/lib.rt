#![tactic(auto)]

// Bounds for sine and cosine by their power series: lemmas, no code.
