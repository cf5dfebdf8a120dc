// Turns the circuit file on standard input into one with 128-byte records, F2M3 being +0.
#![tactic(auto)]

fn main() {
    output::answer(&mut [0u8; circuit_turn::OLD_INPUT], circuit_turn::widen);
}
