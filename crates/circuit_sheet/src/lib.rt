// The sheet of a circuit file: the hour's MUF, and the thirty rows and fifty marks of each slot.
#![tactic(auto)]

pub mod circuit_numbers;

ghost use Rattle.std.specs.Prelude.{◌≡◌, ◌≤◌};
ghost use Rattle.circuit_sheet.specs.CircuitSheet.{slots_of, muf_of, no_slot, slot_rows_of, answered_of, circuit_sheet_of, sheet_of};

use layers::{IonoState, LayerMuf};
use muf::{MufAnswer, MufHour};
use profile::shapes::Mark;
use reflectrix::Ionogram;
use refusal::Refusal;

// What the sheet has of a slot: its ionogram, and the marks of its fifty heights.
#[derive(Clone, Copy, Debug, PartialEq)]
pub struct SlotRows {
    pub ion: Ionogram,
    pub marks: [Mark; 50],
}

// The rows of a slot that is not there are +0, and it has no marks.
// Stays: a count beside three slots, since memory is fixed and the count is the state's `kfx`, by which
// the Rust goes over them. That it is at most three holds of the sheet of any file; those who print a
// sheet ask for it, and it is no ghost field: `answered_of` makes a sheet of any state, and would have
// to be handed a proof of it, which is no plainer to read.
#[derive(Clone, Copy, Debug, PartialEq)]
pub struct Sheet {
    pub hour: MufHour,
    pub slots: usize,
    pub rows: [SlotRows; 3],
}

// The slots as `ionset` leaves them. Of a circuit with no points, which no file has, they are those of the empty state.
pub fn slots(c: circuit::Circuit) -> IonoState
    ensures { result ≡ slots_of c }
{
    let points = crate::circuit_numbers::params(&c.points);
    let made = layers::slots::from_layers(points, c.km).unwrap_or(layers::zero_state());
    let s = crate::circuit_numbers::shaped(made, c.shape);
    layers::slots::ionset(s).unwrap_or(s)
}

// Stays: that km is 5 at most holds of a circuit that was read and is asked where its words are taken; a `Circuit` may hold any
// number, which the writer refuses.
fn circuit_muf(c: circuit::Circuit, s: IonoState) -> Result<MufAnswer, Refusal>
    requires { c.km ≤ 5 }
    ensures { result ≡ muf_of c s }
{
    let words = c.points;
    let mut es = crate::circuit_numbers::es_rows(&words);
    let clat = crate::circuit_numbers::column(&words, 13);
    let clck = crate::circuit_numbers::column(&words, 14);
    let f2d = circuit::decile_table(c);
    let path = crate::circuit_numbers::path(c);
    let km = c.km;
    let numbers = 4 * km;
    muf::curmuf(s, &mut es[..numbers], &f2d, &clat[..km], &clck[..km], path)
}

fn no_slot() -> SlotRows
    ensures { result ≡ no_slot }
{
    SlotRows {
        ion: reflectrix::no_rows(),
        marks: profile::shapes::no_marks(),
    }
}

// The rows and marks of slot k, with cells of its own.
// Stays: s, k and nang are handed on to the slot sheet, which has them one by one as the Rust's calls do; a record of them, made
// here and taken apart there, is no plainer. A `map_or` was tried: its closure copies the marks
// out of the sheet, which takes a variable there as it does here, so it is no plainer either.
fn slot_rows(s: IonoState, k: usize, nang: usize, lines: [LayerMuf; 4]) -> SlotRows
    ensures { result ≡ slot_rows_of s k nang lines }
{
    if k >= s.kfx {
        return no_slot();
    }
    let mut cells = [0i32; 1200];
    if let Ok(a) = slot_sheet::slot_sheet(s, k, nang, lines, &mut cells) {
        let ion = a.ion;
        let marks = a.marks;
        return SlotRows { ion, marks };
    }
    no_slot()
}

fn answered(s: IonoState, nang: usize, hour: MufHour) -> Sheet
    ensures { result ≡ answered_of s nang hour }
{
    let lines = hour.layers;
    let rows = std::array::from_fn(|k| slot_rows(s, k, nang, lines));
    Sheet {
        hour,
        slots: s.kfx,
        rows,
    }
}

fn of_circuit(c: circuit::Circuit) -> Result<Sheet, Refusal>
    requires { c.km ≤ 5 }
    ensures { result ≡ circuit_sheet_of c }
{
    let nang = reflectrix::scan_angles::sang(scalar::number(c.gcdkm), scalar::number(c.amind))?;
    let s = slots(c);
    let m = circuit_muf(c, s)?;
    Ok(answered(s, nang, m.hour))
}

// The sheet of a file, or where it is turned away.
pub fn of_file(file: &[u8]) -> Result<Sheet, Refusal>
    ensures { result ≡ sheet_of file.now }
{
    let c = circuit::read(file)?;
    of_circuit(c)
}
