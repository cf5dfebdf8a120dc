// What sets a line's words apart, and where a byte first stands in a text.
ghost use Rattle.std.specs.Prelude.{◌≡◌, ◌≤◌, length};
ghost use Rattle.composing.specs.Words.{blank, run, other};

#[tactic(auto, unfolding(crate::specs::Words::blank))]
pub fn is_blank(b: u8) -> bool
    ensures { result ≡ blank b }
{
    b == b' ' || b == b'\t' || b == b'\r' || b == b'\n'
}

// How many bytes stand before the first b, all where there is none.
pub fn until(t: &[u8], b: u8) -> usize
    ensures { (result ≤ length t.now) × (result ≡ run (other b) t.now) }
{
    t.iter().take_while(|c| **c != b).count()
}
