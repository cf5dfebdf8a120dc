#![tactic(auto)]

// Sine and cosine are less than one unit in the last place from the exact values: theorems, no code.
