// Prints the picture of the circuit file on standard input.
#![tactic(auto)]

fn main() {
    output::answer(&mut [0u8; sheet_text::INPUT], plot_text::plot_text);
}
