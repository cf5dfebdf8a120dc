#![tactic(auto)]

// No function: the crate is lemmas on cases of whole numbers and on tables, for the proofs of others.
