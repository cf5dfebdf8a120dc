// What `plot` prints of stored files: circuits with and without F1, with NaN, infinite and huge numbers, a MUF
// outside the frame and one of 0, and files that are refused. The files stand on standard input. The stored output is
// what the description and the Rust say.
#![tactic(auto)]

// Eight turns, each as if it were the first: after a length that is too long, the next two bytes are a length.
fn main() {
    let mut input = [0u8; sheet_text::INPUT];
    // Stays: turns are counted, and no list is read.
    for _ in 0..8u64 {
        output::print_stored(&mut input, 1, plot_text::plot_text);
    }
}
