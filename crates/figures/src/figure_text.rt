// The five characters of a printed figure, put on a page.
// Stays: functions of our own and no `Display`, for the reason in crate `lines`.
#![tactic(auto, using(lines::proofs::Placing::putting))]

ghost use Rattle.std.specs.Prelude.{◌≡◌, ◌++◌, ◌≤◌, length};
ghost use Rattle.lines.specs.Text.{with_text};
ghost use Rattle.lines.specs.Aligned.{right};
ghost use Rattle.figures.specs.Figure.{figure_of};
ghost use Rattle.figures.specs.FigureText.{tenths_text, figure_text};

use crate::Printed;
use lines::Page;

// The tenths after their sign, if they have one, at the right of five characters.
fn put_signed<const N: usize>(page: &mut Page<N>, sign: &[u8], n: u32)
    requires { length sign.now ≤ 1 }
    ensures { page.new ≡ with_text N page.old (right 5 (sign.now ++ tenths_text n)) }
{
    crate::decimal_text::put_units(page, 5, sign, 1, u64::from(n));
}

#[tactic(auto, using(lines::proofs::Placing::putting), unfolding(crate::specs::FigureText::figure_text))]
fn put_printed<const N: usize>(page: &mut Page<N>, p: Printed)
    ensures { page.new ≡ with_text N page.old (figure_text p) }
{
    match p {
        Printed::Tenths(n) => put_signed(page, b"", n),
        Printed::Minus(n) => put_signed(page, b"-", n),
        Printed::Stars => page.put_word(b"*****"),
        Printed::Infinite => lines::aligned::put_right(page, 5, b"inf"),
        Printed::NotANumber => lines::aligned::put_right(page, 5, b"NaN"),
    }
}

// The figure of a MUF, to the nearest tenth.
pub fn put_figure<const N: usize>(page: &mut Page<N>, muf: f32)
    ensures { page.new ≡ with_text N page.old (figure_text (figure_of muf)) }
{
    put_printed(page, crate::figure(muf));
}
