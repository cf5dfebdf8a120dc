#![tactic(auto)]

// No function: the order of floats as an order of whole numbers, for proofs to cite.
