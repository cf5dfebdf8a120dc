// The exported calls. Lengths are checked first; a refused call leaves every word.
// Stays: each call has its own lists, lent by a caller in C, with the tests of their lengths in the order
// of the layout.
ghost use Rattle.std.specs.Prelude.{◌≡◌};
ghost use Rattle.refusal.specs.Number.{answer_number};
ghost use Rattle.port_ionogram.specs.Sang.{sang_words};
ghost use Rattle.port_ionogram.specs.Exports.{port_selmod, port_genion, port_fobby, port_alosfv, port_sheet};

use port_state::STATE_WORDS;
use refusal::Refusal;

// out: the angle count
pub fn port_sang(gcdkm: u32, amind: u32, out: &mut [u32]) -> u32
    ensures { (result ≡ (sang_words gcdkm amind out.old).number) × (out.new ≡ (sang_words gcdkm amind out.old).words) }
{
    refusal::answer_number(&crate::ionogram_words::sang_into(gcdkm, amind, out))
}

#[tactic(auto, unfolding(crate::specs::Exports::port_selmod))]
fn selmod_into(state: &[u32], out: &mut [u32]) -> Result<(), Refusal>
    ensures { (answer_number result ≡ (port_selmod state.now out.old).number) × (out.new ≡ (port_selmod state.now out.old).words) }
{
    if state.len() < STATE_WORDS || out.is_empty() {
        return Err(Refusal::Length);
    }
    let s = port_state::state_of(state);
    out[0] = selmod::selmod(s) as u32;
    Ok(())
}

// state STATE_WORDS words; out: the slot
pub fn port_selmod(state: &[u32], out: &mut [u32]) -> u32
    ensures { (result ≡ (port_selmod state.now out.old).number) × (out.new ≡ (port_selmod state.now out.old).words) }
{
    refusal::answer_number(&selmod_into(state, out))
}

#[tactic(auto, unfolding(crate::specs::Exports::port_genion))]
fn genion_into(state: &[u32], k: u32, out: &mut [u32]) -> Result<(), Refusal>
    ensures { (answer_number result ≡ (port_genion state.now k out.old).number) × (out.new ≡ (port_genion state.now k out.old).words) }
{
    if state.len() < STATE_WORDS || out.len() < 150 {
        return Err(Refusal::Length);
    }
    let s = port_state::state_of(state);
    let ion = sounding::genion(s, k as usize)?;
    crate::port_layouts::ionogram_into(ion, out);
    Ok(())
}

// state STATE_WORDS words; out 150: fvert, hprim, htrue, afac, segment
pub fn port_genion(state: &[u32], k: u32, out: &mut [u32]) -> u32
    ensures { (result ≡ (port_genion state.now k out.old).number) × (out.new ≡ (port_genion state.now k out.old).words) }
{
    refusal::answer_number(&genion_into(state, k, out))
}

#[tactic(auto, unfolding(crate::specs::Exports::port_alosfv))]
fn alosfv_into(state: &[u32], k: u32, ion: &mut [u32], layers: &[u32]) -> Result<(), Refusal>
    ensures { (answer_number result ≡ (port_alosfv state.now k ion.old layers.now).number) × (ion.new ≡ (port_alosfv state.now k ion.old layers.now).words) }
{
    if state.len() < STATE_WORDS || ion.len() < 150 || layers.len() < 44 {
        return Err(Refusal::Length);
    }
    let s = port_state::state_of(state);
    let rows = crate::port_layouts::ionogram_of(ion);
    let lines = port_state::line_words::lines_of(layers);
    let rows = losses::alosfv(s, k as usize, rows, lines)?;
    crate::port_layouts::ionogram_into(rows, ion);
    Ok(())
}

// state STATE_WORDS words, ion 150 as `port_genion` leaves them, layers 44
pub fn port_alosfv(state: &[u32], k: u32, ion: &mut [u32], layers: &[u32]) -> u32
    ensures { (result ≡ (port_alosfv state.now k ion.old layers.now).number) × (ion.new ≡ (port_alosfv state.now k ion.old layers.now).words) }
{
    refusal::answer_number(&alosfv_into(state, k, ion, layers))
}

#[tactic(auto, unfolding(crate::specs::Exports::port_fobby))]
fn fobby_into(ion: &[u32], nang: u32, cells: &mut [i32]) -> Result<(), Refusal>
    ensures { (answer_number result ≡ (port_fobby ion.now nang cells.old).number) × (cells.new ≡ (port_fobby ion.now nang cells.old).cells) }
{
    if ion.len() < 150 {
        return Err(Refusal::Length);
    }
    reflectrix::fobby(crate::port_layouts::ionogram_of(ion), nang as usize, cells)
}

// ion 150 words; cells: thirty an angle
pub fn port_fobby(ion: &[u32], nang: u32, cells: &mut [i32]) -> u32
    ensures { (result ≡ (port_fobby ion.now nang cells.old).number) × (cells.new ≡ (port_fobby ion.now nang cells.old).cells) }
{
    refusal::answer_number(&fobby_into(ion, nang, cells))
}

#[tactic(auto, using(crate::proofs::Sheets::refused_leaves), unfolding(crate::specs::Exports::port_sheet))]
fn sheet_into(
    state: &mut [u32],
    k: u32,
    nang: u32,
    layers: &[u32],
    cells: &mut [i32],
    out: &mut [u32],
) -> Result<(), Refusal>
    ensures { (answer_number result ≡ (port_sheet state.old k nang layers.now cells.old out.old).number)
        × (state.new ≡ (port_sheet state.old k nang layers.now cells.old out.old).state)
        × (cells.new ≡ (port_sheet state.old k nang layers.now cells.old out.old).cells)
        × (out.new ≡ (port_sheet state.old k nang layers.now cells.old out.old).out) }
{
    if state.len() < STATE_WORDS || layers.len() < 44 || out.len() < 200 {
        return Err(Refusal::Length);
    }
    let s = port_state::state_of(state);
    let lines = port_state::line_words::lines_of(layers);
    let a = slot_sheet::slot_sheet(s, k as usize, nang as usize, lines, cells)?;
    port_state::state_into(a.state, state);
    crate::ionogram_words::marked_into(a.ion, a.marks, out);
    Ok(())
}

// state STATE_WORDS words, layers 44; cells: thirty an angle; out 200: fvert, hprim, htrue, afac,
// segment, the marks' numbers
pub fn port_sheet(
    state: &mut [u32],
    k: u32,
    nang: u32,
    layers: &[u32],
    cells: &mut [i32],
    out: &mut [u32],
) -> u32
    ensures { (result ≡ (port_sheet state.old k nang layers.now cells.old out.old).number)
        × (state.new ≡ (port_sheet state.old k nang layers.now cells.old out.old).state)
        × (cells.new ≡ (port_sheet state.old k nang layers.now cells.old out.old).cells)
        × (out.new ≡ (port_sheet state.old k nang layers.now cells.old out.old).out) }
{
    refusal::answer_number(&sheet_into(state, k, nang, layers, cells, out))
}
