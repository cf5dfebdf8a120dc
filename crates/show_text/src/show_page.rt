// The page of a sheet for the eye, in decimals and words, and that of a refusal.
// Stays: functions of our own and no `Display`, for the reason in crate `lines`.
#![tactic(auto, using(lines::proofs::Placing::putting))]

ghost use Rattle.std.specs.Prelude.{◌≡◌, ◌≤◌};
ghost use Rattle.lines.specs.Text.{joined, with_text};
ghost use Rattle.show_text.specs.Page.{slot_page, slot_page_at, page_text, refusal_text};

use circuit_sheet::{Sheet, SlotRows};
use lines::Page;
use refusal::Refusal;

// A slot's number, its rows, then the runs of its marks.
fn put_slot<const N: usize>(page: &mut Page<N>, rows: &SlotRows, k: usize)
    ensures { page.new ≡ with_text N page.old (slot_page rows.now k) }
{
    page.put_word(b"\nSlot ");
    page.put_decimal(k as u64);
    page.put_word(b"\nrow      MHz   true km  virtual km       loss  segment\n");
    crate::row_table::put_rows(page, &rows.ion);
    page.put_word(b"\nheights   shape\n");
    crate::run_text::put_runs(page, &rows.marks);
}

// Stays: beside `put_slots` of `sheet_lines`, since a function over what is put of a slot would take a contract longer than this loop.
// That a sheet has three slots at most is asked, for the reason at `circuit_sheet::Sheet`.
fn put_slots<const N: usize>(page: &mut Page<N>, s: &Sheet)
    requires { s.now.slots ≤ 3 }
    ensures { page.new ≡ with_text N page.old (joined (slot_page_at s.now.rows) s.now.slots) }
{
    for (k, rows) in s.rows[..s.slots].iter().enumerate() {
        put_slot(page, rows, k);
    }
}

#[tactic(auto, using(lines::proofs::Placing::putting), unfolding(crate::specs::Page::page_text))]
pub fn put_page<const N: usize>(page: &mut Page<N>, s: &Sheet)
    requires { s.now.slots ≤ 3 }
    ensures { page.new ≡ with_text N page.old (page_text s.now) }
{
    crate::muf_table::put_mufs(page, &s.hour);
    put_slots(page, s);
    page.put_word(
        b"\nSegment n lies between heights n + 1 and n + 2 of the slot's profile;\n\
          top: no segment holds the true height; -: none was looked for.\n",
    );
}

#[tactic(auto, using(lines::proofs::Placing::putting), unfolding(crate::specs::Page::refusal_text))]
pub fn put_refusal<const N: usize>(page: &mut Page<N>, r: Refusal)
    ensures { page.new ≡ with_text N page.old (refusal_text r) }
{
    page.put_refused(r);
    crate::reason_text::put_reason(page, r);
    page.put_byte(b'\n');
}
