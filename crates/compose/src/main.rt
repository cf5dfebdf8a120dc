// Prints the circuit file of the text on standard input, or the number of the first wrong line and what is wrong.
#![tactic(auto)]

fn main() {
    output::answer(&mut [0u8; composing::INPUT], composing::composed_text);
}
