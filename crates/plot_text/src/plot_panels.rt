// The picture of a circuit's slots, in SVG, with a panel for each, put on a page.
// Stays: functions of our own and no `Display`, for the reason in crate `lines`.
#![tactic(auto, using(lines::proofs::Placing::putting))]

ghost use Rattle.std.specs.Prelude.{◌≡◌, ◌≤◌, ◌<◌};
ghost use Rattle.lines.specs.Text.{joined, with_text};
ghost use Rattle.plot_text.specs.Panels.{named_text, top_text, ionogram_paths, height_text, profile_text, panel_text, panel_at, picture_text};

use crate::circuit_plot::{DrawnProfile, Plot};
use circuit_sheet::SlotRows;
use lines::Page;
use muf::MufHour;
use profile::shapes::Mark;
use reflectrix::Ionogram;

#[tactic(auto, using(lines::proofs::Placing::putting), unfolding(crate::specs::Panels::named_text))]
fn put_named<const N: usize>(page: &mut Page<N>, k: usize, ks: usize)
    ensures { page.new ≡ with_text N page.old (named_text k ks) }
{
    if k == ks {
        page.put_word(b", controlling");
    }
}

// A panel's name, and its frame and axes; all that follows in it is measured from its own corner.
fn put_top<const N: usize>(page: &mut Page<N>, k: usize, ks: usize)
    requires { k < 3 }
    ensures { page.new ≡ with_text N page.old (top_text k ks) }
{
    let y = 800 + 4000 * k;
    page.put_word(b"<g transform='translate(0 ");
    page.put_decimal(y as u64);
    page.put_word(b")'>\n<text class='b' x='700' y='200'>slot ");
    page.put_decimal(k as u64);
    put_named(page, k, ks);
    page.put_word(b"</text>\n<use href='#axes'/>\n");
}

// The virtual heights and the true ones, against the sounding frequency.
#[tactic(auto, using(lines::proofs::Placing::putting), unfolding(crate::specs::Panels::ionogram_paths))]
fn put_rows<const N: usize>(page: &mut Page<N>, ion: &Ionogram)
    ensures { page.new ≡ with_text N page.old (ionogram_paths ion.now) }
{
    page.put_word(b"<path class='virtual' d='");
    svg::trace::put_trace(page, &ion.fvert, &ion.hprim);
    page.put_word(b"'/>\n<path class='true' d='");
    svg::trace::put_trace(page, &ion.fvert, &ion.htrue);
    page.put_word(b"'/>\n");
}

// A height of the profile, against the plasma frequency.
#[tactic(auto, unfolding(crate::specs::Panels::height_text))]
fn put_height<const N: usize>(page: &mut Page<N>, m: Mark, density: f32, h: f32)
    ensures { page.new ≡ with_text N page.old (height_text m density h) }
{
    svg::text::put_mark(page, m, scalar::sqrt(density), h);
}

#[tactic(auto, using(lines::proofs::Placing::putting), unfolding(crate::specs::Panels::profile_text))]
fn put_profile<const N: usize>(page: &mut Page<N>, p: &DrawnProfile, marks: &[Mark; 50])
    ensures { page.new ≡ with_text N page.old (profile_text p.now marks.now) }
{
    for ((mark, density), h) in marks.iter().zip(&p.fnsq).zip(&p.htr) {
        put_height(page, *mark, *density, *h);
    }
}

#[tactic(auto, using(lines::proofs::Placing::putting), unfolding(crate::specs::Panels::panel_text))]
fn put_panel<const N: usize>(
    page: &mut Page<N>,
    rows: &SlotRows,
    p: &DrawnProfile,
    hour: &MufHour,
    k: usize,
)
    requires { k < 3 }
    ensures { page.new ≡ with_text N page.old (panel_text rows.now p.now hour.now.allmuf hour.now.ks k) }
{
    put_top(page, k, hour.ks);
    svg::text::put_muf(page, hour.allmuf);
    put_rows(page, &rows.ion);
    put_profile(page, p, &rows.marks);
    page.put_word(b"</g>\n");
}

fn put_panels<const N: usize>(page: &mut Page<N>, p: &Plot)
    requires { p.now.sheet.slots ≤ 3 }
    ensures { page.new ≡ with_text N page.old (joined (panel_at p.now.sheet.rows p.now.profiles p.now.sheet.hour) p.now.sheet.slots) }
{
    let sheet = &p.sheet;
    // Stays: k is the slot's number too, and `for (k, (rows, profile)) in sheet.rows[..n].iter().zip(&p.profiles).enumerate()` is no
    // shorter. Beside `put_slots` of `sheet_lines` and `show_page` it puts of a slot what takes its profile and the hour too.
    for k in 0..sheet.slots {
        put_panel(page, &sheet.rows[k], &p.profiles[k], &sheet.hour, k);
    }
}

// The picture of at most three slots.
#[tactic(auto, using(lines::proofs::Placing::putting), unfolding(crate::specs::Panels::picture_text))]
pub fn put_plot<const N: usize>(page: &mut Page<N>, p: &Plot)
    requires { p.now.sheet.slots ≤ 3 }
    ensures { page.new ≡ with_text N page.old (picture_text p.now) }
{
    svg::frame::put_head(page, p.sheet.slots as u8, p.sheet.hour.allmuf);
    put_panels(page, p);
    page.put_word(b"</svg>\n");
}
