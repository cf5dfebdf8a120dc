// Sheets that other programs made, marked: the input holds a circuit file, with its length in four bytes before it, and then
// such a sheet. The sheet is what `sheet` prints of that file, or differs from some line on.
#![tactic(auto)]

pub mod marking_answer;

ghost use Rattle.std.specs.Prelude.{◌≡◌};
ghost use Rattle.marking.specs.Marked.{sheet_marked, marked_of, marked_text};

use lines::Page;
use refusal::Refusal;

// The bytes that a program reads: those of the length, the longest file, and one more than the longest sheet. What comes after
// them decides nothing.
pub const INPUT: usize = 53253;

// The bytes of a page: every line has room.
pub const ROOM: usize = 32;

// A sheet beside the circuit file that it is said to be of: the number of its first line that is not ours, or None for the same.
// Stays: `file` and `sheet` are two parts of an input, each of its own length.
pub fn mark_sheet(file: &[u8], sheet: &[u8]) -> Result<Option<u64>, Refusal>
    ensures { result ≡ sheet_marked file.now sheet.now }
{
    let ours = sheet_text::sheet_page(file)?;
    crate::marking_answer::marked(ours.text(), sheet)
}

// The whole input.
pub fn mark(input: &[u8]) -> Result<Option<u64>, Refusal>
    ensures { result ≡ marked_of input.now }
{
    if input.len() < 4 {
        return Err(Refusal::Length);
    }
    let n = records::word(input, 0) as usize;
    if input.len() - 4 < n {
        return Err(Refusal::Length);
    }
    let end = 4 + n;
    mark_sheet(&input[4..end], &input[end..])
}

// What `mark` prints of an input.
pub fn marking_text(input: &[u8]) -> Page<ROOM>
    ensures { result ≡ marked_text input.now }
{
    let mut page = Page::new();
    crate::marking_answer::put_marking(&mut page, mark(input));
    page
}
