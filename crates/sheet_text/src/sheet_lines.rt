// The lines of an answered sheet, put on a page.
// Stays: functions of our own and no `Display`, for the reason in crate `lines`.
#![tactic(auto, using(lines::proofs::Placing::putting))]

ghost use Rattle.std.specs.Prelude.{◌≤◌, ◌≡◌};
ghost use Rattle.lines.specs.Text.{joined, with_text};
ghost use Rattle.sheet_text.specs.SheetLines.{natural, muf_fields, muf_line, call_line, slot_line, slot_text, slot_text_at, answered_text};

use circuit_sheet::{Sheet, SlotRows};
use lines::Page;
use muf::MufHour;

#[tactic(auto, using(lines::proofs::Placing::putting), unfolding(crate::specs::SheetLines::muf_fields))]
fn put_mufs<const N: usize>(page: &mut Page<N>, h: &MufHour)
    ensures { page.new ≡ with_text N page.old (muf_fields h.now) }
{
    crate::sheet_rows::put_bits(page, h.emuf);
    crate::sheet_rows::put_bits(page, h.f1muf);
    crate::sheet_rows::put_bits(page, h.f2muf);
    crate::sheet_rows::put_bits(page, h.esmuf);
    crate::sheet_rows::put_bits(page, h.allmuf);
}

// The mode, which is 1 to 3.
// Stays: a number, for the reason at `muf::Mode`.
fn mode(h: &MufHour) -> u64
    ensures { result ≡ natural h.now.modmuf }
{
    h.modmuf.max(0) as u64
}

#[tactic(auto, using(lines::proofs::Placing::putting), unfolding(crate::specs::SheetLines::muf_line))]
fn put_muf<const N: usize>(page: &mut Page<N>, h: &MufHour)
    ensures { page.new ≡ with_text N page.old (muf_line h.now) }
{
    page.put_word(b"muf");
    put_mufs(page, h);
    page.put_field(mode(h));
    page.put_field(h.ks as u64);
    page.put_byte(b'\n');
}

#[tactic(auto, using(lines::proofs::Placing::putting), unfolding(crate::specs::SheetLines::call_line))]
fn put_call<const N: usize>(page: &mut Page<N>, h: &MufHour)
    ensures { page.new ≡ with_text N page.old (call_line h.now) }
{
    page.put_word(b"call ");
    figures::figure_text::put_figure(page, h.allmuf);
    page.put_byte(b'\n');
}

#[tactic(auto, using(lines::proofs::Placing::putting), unfolding(crate::specs::SheetLines::slot_line))]
fn put_slot_number<const N: usize>(page: &mut Page<N>, k: usize)
    ensures { page.new ≡ with_text N page.old (slot_line k) }
{
    page.put_word(b"slot ");
    page.put_decimal(k as u64);
    page.put_byte(b'\n');
}

// A slot's number, its rows, then the marks of its heights.
#[tactic(auto, using(lines::proofs::Placing::putting), unfolding(crate::specs::SheetLines::slot_text))]
fn put_slot<const N: usize>(page: &mut Page<N>, slot: &SlotRows, k: usize)
    ensures { page.new ≡ with_text N page.old (slot_text slot.now k) }
{
    put_slot_number(page, k);
    crate::sheet_rows::put_rows(page, &slot.ion);
    mark_text::put_marks(page, &slot.marks);
}

// Stays: beside `put_slots` of `show_page`, since a function over what is put of a slot would take a contract longer than this loop.
// That a sheet has three slots at most is asked, for the reason at `circuit_sheet::Sheet`.
fn put_slots<const N: usize>(page: &mut Page<N>, s: &Sheet)
    requires { s.now.slots ≤ 3 }
    ensures { page.new ≡ with_text N page.old (joined (slot_text_at s.now.rows) s.now.slots) }
{
    for (k, slot) in s.rows[..s.slots].iter().enumerate() {
        put_slot(page, slot, k);
    }
}

// The text of an answered sheet.
#[tactic(auto, using(lines::proofs::Placing::putting), unfolding(crate::specs::SheetLines::answered_text))]
pub fn put_sheet<const N: usize>(page: &mut Page<N>, s: &Sheet)
    requires { s.now.slots ≤ 3 }
    ensures { page.new ≡ with_text N page.old (answered_text s.now) }
{
    put_muf(page, &s.hour);
    put_call(page, &s.hour);
    put_slots(page, s);
}
