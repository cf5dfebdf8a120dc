// The printed figure for callers in any language: the bits of a MUF in, five bytes out. 1 where fewer
// bytes are lent, and then they stay as they were.
// Stays: bytes lent for the figure, for callers in C.
#![tactic(auto)]

ghost use Rattle.std.specs.Prelude.{◌≡◌};
ghost use Rattle.refusal.specs.Number.{answer_number};
ghost use Rattle.port_figures.specs.Exports.{figure_answer, figure_left};

use lines::Page;
use refusal::Refusal;

#[tactic(auto, unfolding(crate::specs::Exports::figure_answer, crate::specs::Exports::figure_left))]
fn figure_into(muf: u32, out: &mut [u8]) -> Result<(), Refusal>
    ensures { (answer_number result ≡ figure_answer out.old) × (out.new ≡ figure_left muf out.old) }
{
    if out.len() < 5 {
        return Err(Refusal::Length);
    }
    let v = scalar::number(muf);
    let mut page: Page<5> = Page::new();
    figures::figure_text::put_figure(&mut page, v);
    out[..5].copy_from_slice(page.text());
    Ok(())
}

pub fn port_figure(muf: u32, out: &mut [u8]) -> u32
    ensures { (result ≡ figure_answer out.old) × (out.new ≡ figure_left muf out.old) }
{
    refusal::answer_number(&figure_into(muf, out))
}
