// What a line of a circuit's text says: its kind and its numbers, or what is wrong.
mod faults;
mod names;

ghost use Rattle.std.specs.Prelude.{◌≡◌, ◌<◌};
ghost use Rattle.composing.specs.Words.{words_of};
ghost use Rattle.composing.specs.Decimal.{decimal_read};
ghost use Rattle.composing.specs.Names.{line_kind_of, field_place_of};
ghost use Rattle.composing.specs.Row.{blank_row, begun, named, stored, first_word, field_word, number_by, with_word, with_words, ended_row, row_of};

pub use faults::{Fault, Wrong};
pub use names::LineKind;

// A line that has its first word. `missing` has a true for each number that is still to come; the next `left` numbers go to the
// places from `at` on.
// Stays: `missing` beside `values`, which `compose_text` takes whole, as fifteen words: of a list of cases (no number of this line,
// awaited, given) they would be copied out there. And `left` counts numbers that a field still awaits, and no cells of an array.
#[derive(Clone, Copy, Debug, PartialEq, Eq)]
pub struct Row {
    pub kind: LineKind,
    pub values: [u32; 15],
    pub missing: [bool; 15],
    pub at: usize,
    pub left: usize,
}

#[tactic(auto, unfolding(crate::specs::Row::begun))]
fn begin(kind: LineKind) -> Row
    ensures { result ≡ begun kind }
{
    Row {
        kind,
        values: [0; 15],
        missing: kind.wanted(),
        at: 0,
        left: kind.at_once(),
    }
}

#[tactic(auto, unfolding(crate::specs::Row::named))]
fn name(r: Row, at: usize, left: usize) -> Row
    ensures { result ≡ named r at left }
{
    Row { at, left, ..r }
}

#[tactic(auto, unfolding(crate::specs::Row::stored))]
fn store(mut r: Row, v: u32) -> Row
    requires { 0 < r.left }
    ensures { result ≡ stored r v }
{
    if r.at < 15 {
        r.values[r.at] = v;
        r.missing[r.at] = false;
        r.at += 1;
        r.left -= 1;
    }
    r
}

fn first_word(w: &[u8]) -> Result<Row, Fault>
    ensures { result ≡ first_word (line_kind_of w.now) }
{
    let kind = names::kind(w).ok_or(Fault::UnknownLine)?;
    Ok(begin(kind))
}

#[tactic(auto, unfolding(crate::specs::Row::field_word))]
fn field_word(r: Row, w: &[u8]) -> Result<Row, Fault>
    ensures { result ≡ field_word r (field_place_of r.kind w.now) }
{
    let place = r.kind.place(w).ok_or(Fault::UnknownField)?;
    if !r.missing[place] {
        return Err(Fault::FieldTwice);
    }
    Ok(name(r, place, r.kind.width(place)))
}

fn number_word(r: Row, w: &[u8]) -> Result<Row, Fault>
    requires { 0 < r.left }
    ensures { result ≡ number_by (decimal_read w.now) r }
{
    let v = crate::decimals::read_decimal(w).ok_or(Fault::NotANumber)?;
    Ok(store(r, v))
}

// One word more.
#[tactic(auto, unfolding(crate::specs::Row::with_word))]
fn word(row: Option<Row>, w: &[u8]) -> Result<Row, Fault>
    ensures { result ≡ with_word row w.now }
{
    match row {
        None => first_word(w),
        Some(r) if r.left == 0 => field_word(r, w),
        Some(r) => number_word(r, w),
    }
}

// The words of a line whose comment is cut off.
fn all_words(line: &[u8]) -> Result<Option<Row>, Fault>
    ensures { result ≡ with_words blank_row (words_of line.now) }
{
    let mut row = None;
    for w in line
        .split(|b| crate::words::is_blank(*b))
        .filter(|w| !w.is_empty())
    {
        row = Some(word(row, w)?);
    }
    Ok(row)
}

#[tactic(auto, unfolding(crate::specs::Row::ended_row))]
fn ended(row: Option<Row>) -> Result<Option<Row>, Fault>
    ensures { result ≡ ended_row row }
{
    match row {
        None => Ok(None),
        Some(r) => {
            if r.left != 0 {
                return Err(Fault::NumberMissing);
            }
            if names::any(&r.missing) {
                return Err(Fault::FieldMissing);
            }
            Ok(row)
        }
    }
}

// None is a line without a word.
pub fn read_line(line: &[u8]) -> Result<Option<Row>, Fault>
    ensures { result ≡ row_of line.now }
{
    let e = crate::words::until(line, b'#');
    ended(all_words(&line[..e])?)
}
