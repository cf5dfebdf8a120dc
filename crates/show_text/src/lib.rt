// What `show` prints of a circuit file: the sheet for the eye, in decimals and words.
#![tactic(auto)]

pub mod muf_table;
pub mod reason_text;
pub mod row_table;
pub mod run_text;
pub mod show_page;

ghost use Rattle.std.specs.Prelude.{◌≡◌};
ghost use Rattle.show_text.specs.ShowText.{show_text};

use lines::Page;

// The bytes of a page: one of three slots has room.
pub const ROOM: usize = 9216;

// Stays: beside `sheet_text` and `plot_text`. One function of the three, `page_of(answer: Result<T, Refusal>, put: F, refused: G) ->
// Page<N>`, would be handed both arms as closures at each call, and would have to say by `F.pre` that a sheet of three slots at most
// is put, which holds of an answer alone, and by `F.post` and `G.post` what each puts.
pub fn show_text(file: &[u8]) -> Page<ROOM>
    ensures { result ≡ show_text file.now }
{
    let mut page = Page::new();
    match circuit_sheet::of_file(file) {
        Ok(s) => crate::show_page::put_page(&mut page, &s),
        Err(r) => crate::show_page::put_refusal(&mut page, r),
    }
    page
}
