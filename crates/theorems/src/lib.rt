#![tactic(auto)]

// The top statements of every layer in one record, each proved where it is cited from: no code.
