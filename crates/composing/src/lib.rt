// What `compose` prints of a text: the file of its circuit, or the number of the first wrong line and what is wrong.
// Stays: functions of our own and no `Display`, for the reason in crate `lines`.
#![tactic(auto)]

pub mod compose_line;
pub mod compose_text;
pub mod decimals;
pub mod fault_text;
pub mod words;

ghost use Rattle.std.specs.Prelude.{◌≡◌};
ghost use Rattle.composing.specs.Composing.{composed_text};

use crate::fault_text::put_wrong;
use circuit_turn::put_old;
use lines::Page;

// One byte more than the longest text that is read.
pub const INPUT: usize = 32769;
// The bytes of a page: every file and every line has room.
pub const ROOM: usize = 4096;

// The file of the circuit that a text says, or what is wrong with the text.
// Stays: a page of either case, for the reason in crate `circuit_turn`; here what is wrong is put by `put_wrong`.
pub fn composed_text(text: &[u8]) -> Page<ROOM>
    ensures { result ≡ composed_text text.now }
{
    let mut page = Page::new();
    if text.len() > 32768 {
        page.put_word(b"over 32768 bytes\n");
        return page;
    }
    match crate::compose_text::compose(text) {
        Ok(c) => put_old(&mut page, c),
        Err(wrong) => put_wrong(&mut page, wrong),
    }
    page
}
