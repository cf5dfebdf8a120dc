// What `sheet` prints of a slot's marks, put on a page.
// Stays: functions of our own and no `Display`, for the reason in crate `lines`.
#![tactic(auto, using(lines::proofs::Placing::putting))]

ghost use Rattle.std.specs.Prelude.{◌≡◌, ◌<◌};
ghost use Rattle.lines.specs.Text.{with_text};
ghost use Rattle.profile.specs.Mark.{name_of};
ghost use Rattle.mark_text.specs.MarkText.{mark_line, marks_text};

use lines::Page;
use profile::shapes::Mark;

// Stays: a mark has two words, its name here and another in pictures (`svg::text`); a `From`, which would have to stand in `shapes`,
// would not say which of them it gives.
#[tactic(auto, unfolding(profile::specs::Mark::name_of))]
fn name(m: Mark) -> &'static [u8]
    ensures { result.now ≡ name_of m }
{
    match m {
        Mark::None => b"none",
        Mark::Tail => b"D-E tail",
        Mark::E => b"E parabola",
        Mark::Valley => b"valley line",
        Mark::F1 => b"F1",
        Mark::F2 => b"F2",
        Mark::Gap => b"gap",
    }
}

// The name of the shape that made a density.
pub fn put_name<const N: usize>(page: &mut Page<N>, m: Mark)
    ensures { page.new ≡ with_text N page.old (name_of m) }
{
    page.put_word(name(m));
}

#[tactic(auto, using(lines::proofs::Placing::putting), unfolding(crate::specs::MarkText::mark_line))]
fn put_mark<const N: usize>(page: &mut Page<N>, i: usize, m: Mark)
    requires { i < 50 }
    ensures { page.new ≡ with_text N page.old (mark_line i m) }
{
    let n = i + 1;
    page.put_decimal(n as u64);
    page.put_byte(b' ');
    put_name(page, m);
    page.put_byte(b'\n');
}

// Fifty lines, from the lowest height up.
#[tactic(auto, using(lines::proofs::Placing::putting), unfolding(crate::specs::MarkText::marks_text))]
pub fn put_marks<const N: usize>(page: &mut Page<N>, marks: &[Mark; 50])
    ensures { page.new ≡ with_text N page.old (marks_text marks.now) }
{
    for (i, m) in marks.iter().enumerate() {
        put_mark(page, i, *m);
    }
}
