// Prints the chain of the circuit file on standard input.
#![tactic(auto)]

fn main() {
    output::answer(&mut [0u8; chain_text::INPUT], chain_text::chain_text);
}
