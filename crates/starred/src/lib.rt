#![tactic(auto)]

// The paper's marked trials as a table, each row proved of the definitions that the code is equal to; no code.
