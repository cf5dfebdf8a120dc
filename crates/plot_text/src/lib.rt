// What `plot` prints of a circuit file, as bytes: a picture, in SVG, with a panel for each slot.
#![tactic(auto)]

pub mod circuit_plot;
pub mod plot_panels;

ghost use Rattle.std.specs.Prelude.{◌≡◌};
ghost use Rattle.plot_text.specs.PlotText.{plot_text};

use lines::Page;

// The bytes of a picture: one of three slots has room.
pub const ROOM: usize = 24576;

// Stays: beside `sheet_text` and `show_text`, as said at `show_text`.
pub fn plot_text(file: &[u8]) -> Page<ROOM>
    ensures { result ≡ plot_text file.now }
{
    let mut page = Page::new();
    match crate::circuit_plot::plot_of(file) {
        Ok(p) => crate::plot_panels::put_plot(&mut page, &p),
        Err(r) => page.put_refused(r),
    }
    page
}
