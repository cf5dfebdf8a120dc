#![tactic(auto)]

// exp and ln are near the exact values: theorems, no code.
