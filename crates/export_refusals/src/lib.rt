#![tactic(auto)]

// No function: which numbers each export can answer.
