// No function: that the circuit MUF meets sine and cosine only where they answer.
#![tactic(auto)]
