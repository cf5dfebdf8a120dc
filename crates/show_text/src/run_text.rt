// A slot's marks for the eye: heights that follow one another with one mark are a run, and a run is a line.
// Stays: functions of our own and no `Display`, for the reason in crate `lines`.
#![tactic(auto, using(lines::proofs::Placing::putting))]

ghost use Rattle.std.specs.Prelude.{◌≡◌, true};
ghost use Rattle.lines.specs.Text.{with_text};
ghost use Rattle.show_text.specs.RunText.{start_at, end_at, runs_text};

use lines::Page;
use profile::shapes::Mark;

// A run's first height, numbered from 1.
#[tactic(auto, using(lines::proofs::Placing::putting), unfolding(crate::specs::RunText::start_at))]
fn put_start<const N: usize>(page: &mut Page<N>, n: usize)
    ensures { page.new ≡ with_text N page.old (start_at n) }
{
    figures::decimal_text::put_whole(page, 2, n as u64);
    page.put_word(b" to ");
}

// Its last height, and the name of its mark.
#[tactic(auto, using(lines::proofs::Placing::putting), unfolding(crate::specs::RunText::end_at))]
fn put_end<const N: usize>(page: &mut Page<N>, n: usize, m: Mark)
    ensures { page.new ≡ with_text N page.old (end_at n m) }
{
    figures::decimal_text::put_whole(page, 2, n as u64);
    page.put_word(b"  ");
    mark_text::put_name(page, m);
    page.put_byte(b'\n');
}

// The runs of the fifty heights, from the lowest up.
#[tactic(auto, using(lines::proofs::Placing::putting), unfolding(crate::specs::RunText::runs_text, crate::specs::RunText::run_text, crate::specs::RunText::begins_at, crate::specs::RunText::ends_at, crate::specs::RunText::mark_at, crate::specs::RunText::start_text, crate::specs::RunText::end_text))]
pub fn put_runs<const N: usize>(page: &mut Page<N>, marks: &[Mark; 50])
    ensures { page.new ≡ with_text N page.old (runs_text marks.now) }
{
    for (i, m) in marks.iter().enumerate() {
        let n = i + 1;
        if i == 0 || marks[i - 1] != *m {
            put_start(page, n);
        }
        if i == 49 || *m != marks[n] {
            put_end(page, n, *m);
        }
    }
}
