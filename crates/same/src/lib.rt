#![tactic(auto)]

// No function: when two numbers are the same, and that on the numbers of the format this is equality.
