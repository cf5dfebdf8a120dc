#![tactic(auto)]

// No function: the crate is the theorem that the logic's rounding is IEEE 754's roundTiesToEven.
