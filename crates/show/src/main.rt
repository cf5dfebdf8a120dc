// Prints the sheet of the circuit file on standard input for the eye.
#![tactic(auto)]

fn main() {
    output::answer(&mut [0u8; sheet_text::INPUT], show_text::show_text);
}
