// The frame of a panel with its axes, as SVG, put on a page: a line of the grid for every 5 MHz and every 100 km.
// Stays: functions of our own and no `Display`, for the reason in crate `lines`.
#![tactic(auto, using(lines::proofs::Placing::putting))]

ghost use Rattle.std.specs.Prelude.{◌≡◌, ◌≤◌};
ghost use Rattle.lines.specs.Text.{with_text, joined};
ghost use Rattle.svg.specs.Axes.{across_text, up_text, across_at, up_at, axes_text};

use lines::Page;

// A line of the grid at a frequency, with its number.
// Stays: a text of its own beside that of `text`, `put_line`, of which only a piece is alike.
#[tactic(auto, using(lines::proofs::Placing::putting), unfolding(crate::specs::Axes::across_text))]
fn put_across<const N: usize>(page: &mut Page<N>, mhz: u64)
    requires { mhz ≤ 30 }
    ensures { page.new ≡ with_text N page.old (across_text mhz) }
{
    let x = 700 + 190 * mhz;
    page.put_word(b"<path class='grid' d='M");
    page.put_decimal(x);
    page.put_word(b" 500V3500'/><text class='m' x='");
    page.put_decimal(x);
    page.put_word(b"' y='3660'>");
    page.put_decimal(mhz);
    page.put_word(b"</text>\n");
}

// And one at a height.
#[tactic(auto, using(lines::proofs::Placing::putting), unfolding(crate::specs::Axes::up_text))]
fn put_up<const N: usize>(page: &mut Page<N>, km: u64)
    requires { km ≤ 600 }
    ensures { page.new ≡ with_text N page.old (up_text km) }
{
    let y = 3500 - 5 * km;
    page.put_word(b"<path class='grid' d='M700 ");
    page.put_decimal(y);
    page.put_word(b"h5700'/><text class='e' x='650' y='");
    page.put_decimal(y);
    page.put_word(b"' dy='45'>");
    page.put_decimal(km);
    page.put_word(b"</text>\n");
}

// Stays: two loops over the line's number, since a closure that puts a line would need a promise longer than the loop that it
// spares.
fn put_frequencies<const N: usize>(page: &mut Page<N>)
    ensures { page.new ≡ with_text N page.old (joined across_at 7) }
{
    for i in 0..7 {
        put_across(page, 5 * i);
    }
}

// Stays: a loop of its own, for the reason of the one above.
fn put_heights<const N: usize>(page: &mut Page<N>)
    ensures { page.new ≡ with_text N page.old (joined up_at 7) }
{
    for i in 0..7 {
        put_up(page, 100 * i);
    }
}

pub fn put_axes<const N: usize>(page: &mut Page<N>)
    ensures { page.new ≡ with_text N page.old axes_text }
{
    page.put_word(b"<g id='axes'>\n<path class='frame' d='M700 500h5700V3500h-5700z'/>\n");
    put_frequencies(page);
    put_heights(page);
    page.put_word(
        b"<text class='m' x='3550' y='3840'>frequency (MHz)</text>\n\
          <text class='m' transform='translate(230 2000) rotate(-90)'>height (km)</text>\n\
          </g>\n",
    );
}
