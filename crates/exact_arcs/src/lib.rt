#![tactic(auto)]

// Arc sine and arc tangent are less than one unit in the last place from the exact values: theorems, no code.
