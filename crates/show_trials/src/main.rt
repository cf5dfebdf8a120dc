// What `show` prints of stored circuit files: short and long paths, with and without F1, two points, NaN, numbers
// too wide for their columns, and a file for every refusal. Standard input has the files; the oracle writes it, and
// the stored output (oracle/README.md).
#![tactic(auto)]

// At most a hundred pages.
fn main() {
    output::print_stored(&mut [0u8; sheet_text::INPUT], 100, show_text::show_text);
}
