// Prints the sheet of the circuit file on standard input.
#![tactic(auto)]

fn main() {
    output::answer(&mut [0u8; sheet_text::INPUT], sheet_text::sheet_text);
}
