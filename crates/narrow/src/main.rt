// Turns the circuit file with 128-byte records on standard input into one with 64-byte records.
#![tactic(auto)]

fn main() {
    output::answer(&mut [0u8; circuit_turn::NEW_INPUT], circuit_turn::narrow);
}
