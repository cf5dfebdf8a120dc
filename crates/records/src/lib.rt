// How a circuit file is laid out; a record, lent as its part of the file, and the numbers in it.
// Stays: the record r is the part of the file itself, so its readers take it with a place `at`, or with the words `out` that they fill.
#![tactic(auto)]

pub mod record_chain;
pub mod wide_form;

ghost use Rattle.std.specs.Prelude.{◌≡◌, ◌+◌, ◌*◌, ◌≤◌, ◌<◌, length, get_or, drop};
ghost use Rattle.records.specs.Record.{half_at, word_at, record_words, all_zero, fits};

// The bytes that a program reads of a file in the paper's form: a record more than the longest, so that a longer one is seen to be
// too long.
pub const INPUT: usize = 4160;

// How a file is laid out: bytes in a record, the kind of record 0, and the words that a point has after its fifteen. Which three
// numbers are fit is a law about any three (`Fit`), so readers and writers ask for it, and the type does not hold it.
#[derive(Clone, Copy, Debug, PartialEq, Eq)]
pub struct Form {
    pub size: usize,
    pub first: usize,
    pub extra: usize,
}

// The kinds of a record, by their numbers in a file. Record 0 has a kind of its own in each form.
#[derive(Clone, Copy, Debug, PartialEq, Eq)]
pub enum Kind {
    Head = 1,
    Point = 2,
    Deciles = 3,
    WideHead = 4,
}

// The paper's form.
// Stays: a function, beside the other form's: a constant has no contract, so a wrong number in it would not be refused in this crate.
pub fn form64() -> Form
    ensures { result ≡ Rattle.records.specs.Record.form64 }
{
    Form {
        size: 64,
        first: Kind::Head as usize,
        extra: 0,
    }
}

// Whether every byte is zero.
pub fn all_zero(s: &[u8]) -> bool
    ensures { result ≡ all_zero s.now }
{
    s.iter().all(|b| *b == 0)
}

pub fn byte(r: &[u8], at: usize) -> usize
    requires { at < length r.now }
    ensures { result ≡ get_or r.now at 0 }
{
    usize::from(r[at])
}

// The two bytes from `at` as a number.
#[tactic(auto, unfolding(crate::specs::Record::half_at))]
pub fn half(r: &[u8], at: usize) -> usize
    requires { at + 1 < length r.now }
    ensures { result ≡ half_at r.now at }
{
    usize::from(u16::from_le_bytes([r[at], r[at + 1]]))
}

// The four bytes from `at` as a number.
#[tactic(auto, unfolding(crate::specs::Record::word_at))]
pub fn word(r: &[u8], at: usize) -> u32
    requires { at + 3 < length r.now }
    ensures { result ≡ word_at r.now at }
{
    u32::from_le_bytes([r[at], r[at + 1], r[at + 2], r[at + 3]])
}

// The words after the first `skip`, of those from byte 4 on, as many as `out` holds.
pub fn words(r: &[u8], skip: usize, out: &mut [u32])
    requires { 4 + 4 * (skip + length out.old) ≤ length r.now }
    ensures { out.new ≡ drop skip (record_words r.now (skip + length out.old)) }
{
    for (i, w) in out.iter_mut().enumerate() {
        *w = word(r, 4 + 4 * (skip + i));
    }
}

// Whether a record has this kind, and zeros after so many words.
// Stays: the kind is a number, since a form may give record 0 any; those of the other records are cases of `Kind`.
pub fn sound(r: &[u8], kind: usize, words: usize) -> bool
    requires { 4 + 4 * words ≤ length r.now }
    ensures { result ≡ fits kind words r.now }
{
    half(r, 0) == kind && all_zero(&r[4 + 4 * words..])
}
