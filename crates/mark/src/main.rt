// Marks the sheet on standard input, which follows a circuit file and, before that, the file's length in four bytes.
#![tactic(auto)]

fn main() {
    output::answer(&mut [0u8; marking::INPUT], marking::marking_text);
}
