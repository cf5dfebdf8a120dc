// The marks of a profile and the MUF's line in a panel of the picture, as SVG, put on a page.
// Stays: functions of our own and no `Display`, for the reason in crate `lines`.
#![tactic(auto, using(lines::proofs::Placing::putting))]

ghost use Rattle.std.specs.Prelude.{◌≡◌};
ghost use Rattle.lines.specs.Text.{with_text};
ghost use Rattle.svg.specs.Pieces.{id_of, use_text, mark_text, line_text, muf_text};

use crate::points::Place;
use lines::Page;
use profile::shapes::Mark;

// Stays: neither the mark nor its word is a type of this crate, so no `From` can stand here, and a trait of our own for one match is
// no plainer.
#[tactic(auto, unfolding(crate::specs::Pieces::id_of))]
fn id(m: Mark) -> &'static [u8]
    ensures { result.now ≡ id_of m }
{
    match m {
        Mark::None => b"none",
        Mark::Tail => b"tail",
        Mark::E => b"E",
        Mark::Valley => b"valley",
        Mark::F1 => b"F1",
        Mark::F2 => b"F2",
        Mark::Gap => b"gap",
    }
}

fn put_use<const N: usize>(page: &mut Page<N>, m: Mark, p: Place)
    ensures { page.new ≡ with_text N page.old (use_text m p.x p.y) }
{
    page.put_word(b"<use href='#");
    page.put_word(id(m));
    page.put_word(b"' x='");
    page.put_decimal(p.x);
    page.put_word(b"' y='");
    page.put_decimal(p.y);
    page.put_word(b"'/>\n");
}

// The mark of one height of a profile, where its point is in the frame.
#[tactic(auto, using(lines::proofs::Placing::putting), unfolding(crate::specs::Pieces::mark_text))]
pub fn put_mark<const N: usize>(page: &mut Page<N>, m: Mark, f: f32, h: f32)
    ensures { page.new ≡ with_text N page.old (mark_text m f h) }
{
    if let Some(p) = crate::points::point_drawn(f, h) {
        put_use(page, m, p);
    }
}

// Stays: a text of its own beside that of `axes`, `put_across`, of which only a piece is alike.
#[tactic(auto, using(lines::proofs::Placing::putting), unfolding(crate::specs::Pieces::line_text))]
fn put_line<const N: usize>(page: &mut Page<N>, x: u64, muf: f32)
    ensures { page.new ≡ with_text N page.old (line_text x muf) }
{
    page.put_word(b"<path class='muf' d='M");
    page.put_decimal(x);
    page.put_word(b" 500V3500'/><text class='m' x='");
    page.put_decimal(x);
    page.put_word(b"' y='440'>MUF ");
    figures::figure_text::put_figure(page, muf);
    page.put_word(b" MHz</text>\n");
}

// The MUF's line with its figure, where it is in the frame.
#[tactic(auto, using(lines::proofs::Placing::putting), unfolding(crate::specs::Pieces::muf_text))]
pub fn put_muf<const N: usize>(page: &mut Page<N>, muf: f32)
    ensures { page.new ≡ with_text N page.old (muf_text muf) }
{
    if let Some(foot) = crate::points::point_drawn(muf, 0.0) {
        put_line(page, foot.x, muf);
    }
}
