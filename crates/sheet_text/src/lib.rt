// What `sheet` prints of a circuit file, as a page.
#![tactic(auto)]

pub mod sheet_lines;
pub mod sheet_rows;

ghost use Rattle.std.specs.Prelude.{◌≡◌, ◌≤◌};
ghost use Rattle.lines.specs.Text.{refused_text};
ghost use Rattle.circuit_sheet.specs.CircuitSheet.{sheet_of};
ghost use Rattle.sheet_text.specs.SheetText.{sheet_text, text_by, answered_text};

use circuit_sheet::Sheet;
use lines::Page;
pub use records::INPUT;
use refusal::Refusal;

// The bytes of a page: a text of three slots has room.
pub const ROOM: usize = 8192;

fn answered(sheet: &Sheet) -> Page<ROOM>
    requires { sheet.now.slots ≤ 3 }
    ensures { result ≡ answered_text sheet.now }
{
    let mut page = Page::new();
    crate::sheet_lines::put_sheet(&mut page, sheet);
    page
}

fn refused(r: Refusal) -> Page<ROOM>
    ensures { result ≡ refused_text r }
{
    let mut page = Page::new();
    page.put_refused(r);
    page
}

// The text of an answered sheet, or the refusal.
pub fn sheet_page(file: &[u8]) -> Result<Page<ROOM>, Refusal>
    ensures { result ≡ text_by (sheet_of file.now) }
{
    let sheet = circuit_sheet::of_file(file)?;
    Ok(answered(&sheet))
}

// What is printed of the file: of a refused one the refusal.
// Stays: beside `show_text` and `plot_text`, as said at `show_text`.
pub fn sheet_text(file: &[u8]) -> Page<ROOM>
    ensures { result ≡ sheet_text file.now }
{
    sheet_page(file).unwrap_or_else(refused)
}
