#![tactic(auto)]

// The arc tangent's own power series: a theorem, no code.
