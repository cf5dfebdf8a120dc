// Two texts, ours and theirs: whether they are the same, or the first line of theirs that is not ours. A line is taken with its
// line feed.
#![tactic(auto)]

ghost use Rattle.std.specs.Prelude.{◌≡◌};
ghost use Rattle.first_difference.specs.Difference.{verdict_of};
ghost use Rattle.first_difference.specs.Closed.{feed_of};

// The line feeds in one byte.
fn feed(b: u8) -> u64
    ensures { result ≡ feed_of b }
{
    u64::from(b == b'\n')
}

// The number of the first line of theirs that is not ours, counted from 1: byte by byte, counting lines.
// Stays: `ours` and `theirs` beside each other are two texts with lengths of their own; one list of pairs could not hold them.
pub fn verdict(ours: &[u8], theirs: &[u8]) -> Option<u64>
    ensures { result ≡ verdict_of ours.now theirs.now }
{
    let mut line: u64 = 1;
    for (a, b) in ours.iter().zip(theirs) {
        if a != b {
            return Some(line);
        }
        line += feed(*a);
    }
    if ours.len() == theirs.len() {
        return None;
    }
    Some(line)
}
