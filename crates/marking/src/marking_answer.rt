// The marking of a text, theirs, beside ours: refused, the same, or different from some line on; and its line of text.
// Stays: functions of our own and no `Display`, for the reason in crate `lines`.
ghost use Rattle.std.specs.Prelude.{◌≡◌, Ok};
ghost use Rattle.lines.specs.Text.{with_text};
ghost use Rattle.marking.specs.Answer.{text_marked};
ghost use Rattle.marking.specs.Text.{differs_text, marking_text};

use lines::Page;
use refusal::Refusal;

// The bytes that their text may have.
pub const SHEET: usize = 49152;

// The number of the first line that is not ours, counted from 1, or None where theirs is the same.
// Stays: `ours` and `theirs` are two texts, each of its own length.
pub fn marked(ours: &[u8], theirs: &[u8]) -> Result<Option<u64>, Refusal>
    ensures { result ≡ text_marked (Ok (tt {0})) ours.now theirs.now }
{
    if theirs.len() > SHEET {
        return Err(Refusal::SheetLength);
    }
    Ok(first_difference::verdict(ours, theirs))
}

#[tactic(auto, using(lines::proofs::Placing::putting), unfolding(crate::specs::Text::differs_text))]
fn put_differs<const N: usize>(page: &mut Page<N>, n: u64)
    ensures { page.new ≡ with_text N page.old (differs_text n) }
{
    page.put_word(b"differs ");
    page.put_decimal(n);
    page.put_byte(b'\n');
}

// The marking's line.
pub fn put_marking<const N: usize>(page: &mut Page<N>, m: Result<Option<u64>, Refusal>)
    ensures { page.new ≡ with_text N page.old (marking_text m) }
{
    match m {
        Ok(None) => page.put_word(b"same\n"),
        Ok(Some(n)) => put_differs(page, n),
        Err(r) => page.put_refused(r),
    }
}
