// The line through an ionogram's rows, as the data of an SVG path, put on a page.
// Stays: functions of our own and no `Display`, for the reason in crate `lines`.
#![tactic(auto, using(lines::proofs::Placing::putting))]

ghost use Rattle.std.specs.Prelude.{◌≡◌};
ghost use Rattle.lines.specs.Text.{with_text};
ghost use Rattle.svg.specs.Trace.{pen_text, pair_text, step_text, trace_text};

use crate::points::Place;
use lines::Page;

// Whether the line is drawn on from the point before, or starts here.
#[tactic(auto, unfolding(crate::specs::Trace::pen_text))]
fn put_pen<const N: usize>(page: &mut Page<N>, last: Option<Place>)
    ensures { page.new ≡ with_text N page.old (pen_text last) }
{
    match last {
        Some(_) => page.put_byte(b'L'),
        None => page.put_byte(b'M'),
    }
}

#[tactic(auto, using(lines::proofs::Placing::putting), unfolding(crate::specs::Trace::pair_text))]
fn put_pair<const N: usize>(page: &mut Page<N>, p: Place)
    ensures { page.new ≡ with_text N page.old (pair_text p.x p.y) }
{
    page.put_decimal(p.x);
    page.put_field(p.y);
}

#[tactic(auto, using(lines::proofs::Placing::putting), unfolding(crate::specs::Trace::step_text))]
fn put_step<const N: usize>(page: &mut Page<N>, last: Option<Place>, here: Option<Place>)
    ensures { page.new ≡ with_text N page.old (step_text last here) }
{
    if let Some(p) = here {
        put_pen(page, last);
        put_pair(page, p);
    }
}

// The line through thirty rows, broken where a row has no point.
// Stays: two columns side by side, since the ionogram has its rows by columns, as the Rust has.
#[tactic(auto, using(lines::proofs::Placing::putting), unfolding(crate::specs::Trace::before_of))]
pub fn put_trace<const N: usize>(page: &mut Page<N>, f: &[f32; 30], h: &[f32; 30])
    ensures { page.new ≡ with_text N page.old (trace_text f.now h.now) }
{
    let mut last = None;
    for (f, h) in f.iter().zip(h) {
        let here = crate::points::point_drawn(*f, *h);
        put_step(page, last, here);
        last = here;
    }
}
