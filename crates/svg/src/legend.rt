// The legend of the picture, as SVG, put on a page.
// Stays: functions of our own and no `Display`, for the reason in crate `lines`.
ghost use Rattle.std.specs.Prelude.{◌≡◌};
ghost use Rattle.lines.specs.Text.{with_text};
ghost use Rattle.svg.specs.Legend.{shapes_text, lines_text};

use lines::Page;

// The legend: the shapes of the profile.
#[tactic(auto, unfolding(crate::specs::Legend::shapes_text))]
pub fn put_shapes<const N: usize>(page: &mut Page<N>)
    ensures { page.new ≡ with_text N page.old shapes_text }
{
    page.put_word(
        b"<text x='300' y='480'>Profile:</text>\n\
          <use href='#tail' x='1060' y='440'/><text x='1130' y='480'>D-E tail</text>\n\
          <use href='#E' x='1860' y='440'/><text x='1930' y='480'>E parabola</text>\n\
          <use href='#valley' x='2820' y='440'/><text x='2890' y='480'>valley line</text>\n\
          <use href='#F1' x='3780' y='440'/><text x='3850' y='480'>F1</text>\n\
          <use href='#F2' x='4220' y='440'/><text x='4290' y='480'>F2</text>\n\
          <use href='#gap' x='4660' y='440'/><text x='4730' y='480'>gap</text>\n",
    );
}

// And the lines.
#[tactic(auto, unfolding(crate::specs::Legend::lines_text))]
pub fn put_lines<const N: usize>(page: &mut Page<N>)
    ensures { page.new ≡ with_text N page.old lines_text }
{
    page.put_word(
        b"<text x='300' y='700'>Ionogram:</text>\n\
          <path class='true' d='M1060 660h260'/><text x='1390' y='700'>true height</text>\n\
          <path class='virtual' d='M2340 660h260'/><text x='2670' y='700'>virtual height</text>\n\
          <path class='muf' d='M3780 660h260'/><text x='4110' y='700'>circuit MUF</text>\n",
    );
}
