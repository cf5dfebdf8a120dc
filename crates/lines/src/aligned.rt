// A text in a field of a given width, put on a page.
// Stays: functions of our own and no `Display`, for the reason in crate `lines`.
#![tactic(auto, using(crate::proofs::Placing::putting))]

ghost use Rattle.std.specs.Prelude.{◌≡◌};
ghost use Rattle.lines.specs.Text.{with_text};
ghost use Rattle.lines.specs.Aligned.{repeated, right};

use crate::Page;

// A byte, n times.
// Stays: a loop that only counts; there is no list of bytes to go over. `for b in iter::repeat_n(b, n)` would name a byte at each turn
// that stands here already.
#[tactic(auto, using(crate::proofs::Placing::putting), unfolding(crate::specs::Aligned::repeated))]
pub fn put_repeated<const N: usize>(page: &mut Page<N>, b: u8, n: usize)
    ensures { page.new ≡ with_text N page.old (repeated b n) }
{
    for _i in 0..n {
        page.put_byte(b);
    }
}

// A word at the right of its field; stars where it is wider.
#[tactic(auto, using(crate::proofs::Placing::putting), unfolding(crate::specs::Aligned::right))]
pub fn put_right<const N: usize>(page: &mut Page<N>, width: usize, word: &[u8])
    ensures { page.new ≡ with_text N page.old (right width word.now) }
{
    if word.len() <= width {
        put_repeated(page, b' ', width - word.len());
        return page.put_word(word);
    }
    put_repeated(page, b'*', width);
}
