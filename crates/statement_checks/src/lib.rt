#![tactic(auto)]

// No function: that definitions which stand only in statements say all that they are read to say.
