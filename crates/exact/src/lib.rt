#![tactic(auto)]

// How near the elementary functions are to the exact values: statements and theorems, no code.
