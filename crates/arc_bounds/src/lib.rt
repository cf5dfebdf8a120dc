#![tactic(auto)]

// Bounds for the angles of asin and atan by the power series of sine and cosine: lemmas, no code.
