// A program's steps: what it is given on standard input, the text of that, and the text on standard output.
#![tactic(auto)]

use std::convert::AsSlice;

// A program's last step: what it has to say goes to standard output, and where that takes it not whole, a
// line on standard error says so.
pub fn write_text(text: &[u8]) {
    if io::write_all(1, text) {
        return;
    }
    io::write_all(2, b"standard output did not take the whole text\n");
}

// Reads as much of standard input as the lent bytes hold, and prints the text that it makes.
pub fn answer<T: AsSlice<u8> + Drop, F: Fn(&[u8]) -> T>(input: &mut [u8], text: F)
    requires { F.IsAlwaysCallable text }
{
    let n = io::read_full(0, input);
    write_text(text(&input[..n]).as_slice());
}

// The text of the next stored file on standard input; false where there is none, or where standard output does not take it.
fn print_next<T: AsSlice<u8> + Drop, F: Fn(&[u8]) -> T>(input: &mut [u8], text: &F) -> bool
    requires { F.IsAlwaysCallable text.now }
{
    let mut head = [0u8; 2];
    if io::read_full(0, &mut head) < 2 {
        return false;
    }
    let n = usize::from(u16::from_le_bytes(head));
    if n > input.len() || io::read_full(0, &mut input[..n]) < n {
        return false;
    }
    io::write_all(1, text(&input[..n]).as_slice())
}

// Prints the texts of stored files. They stand on standard input, each after its length in two bytes, the lower first; none is longer
// than the lent bytes.
// Stays: turns are counted, and no list is read.
pub fn print_stored<T: AsSlice<u8> + Drop, F: Fn(&[u8]) -> T>(
    input: &mut [u8],
    most: usize,
    text: F,
)
    requires { F.IsAlwaysCallable text }
{
    for _ in 0..most {
        if !print_next(input, &text) {
            return;
        }
    }
}
