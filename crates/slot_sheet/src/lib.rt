// The slot sheet: a slot's profile, its ionogram, its reflectrix and its loss factors in one call,
// and which shape made each density of the profile.
// Stays: s, k, nang, layers and cells are what the four calls of the Rust take between them.
#![tactic(auto)]

ghost use Rattle.std.specs.Prelude.{◌≡◌};
ghost use Rattle.slot_sheet.specs.Sheet.{slot_sheet_of, sheet_cells_of};

use layers::{IonoState, LayerMuf};
use profile::shapes::Mark;
use reflectrix::Ionogram;
use refusal::Refusal;

// The ionogram of a slot, the marks of its fifty heights, and the state as `lecden` of the slot left
// it.
// Stays: a slot's sheet also leaves the state, and the sheet of a file keeps rows and marks alone of the slots.
#[derive(Clone, Copy, Debug, PartialEq)]
pub struct SlotSheet {
    pub state: IonoState,
    pub ion: Ionogram,
    pub marks: [Mark; 50],
}

// A layer table of any origin. Cells past the last angle stay; a refused call leaves every cell.
// Stays: the room is tested by `fobby` too, once the ionogram is made; here it is tested before anything is worked out.
pub fn slot_sheet(
    s: IonoState,
    k: usize,
    nang: usize,
    layers: [LayerMuf; 4],
    cells: &mut [i32],
) -> Result<SlotSheet, Refusal>
    ensures value { result ≡ slot_sheet_of s k nang layers cells.old }
    ensures cells_after { cells.new ≡ sheet_cells_of s k nang cells.old }
{
    layers::slot_number(k)?;
    if nang > 40 || cells.len() < 30 * nang {
        return Err(Refusal::Reflectrix);
    }
    let marks = profile::shapes::marks_slot(s, k);
    let t = profile::lecden_slot(s, k);
    let ion = sounding::genion_slot(t, k);
    reflectrix::fobby(ion, nang, cells)?;
    Ok(SlotSheet {
        state: t,
        ion: losses::alosfv_slot(t, k, ion, layers),
        marks,
    })
}
