// The functions of port_ionogram for callers in C, with the same contracts.
// Stays: names, parameters and their order are the C interface.
#![tactic(auto)]

ghost use Rattle.std.specs.Prelude.{◌≡◌};
ghost use Rattle.port_ionogram.specs.Sang.{sang_words};
ghost use Rattle.port_ionogram.specs.Exports.{port_selmod, port_genion, port_fobby, port_alosfv, port_sheet};

// out: the angle count
#[unsafe(no_mangle)]
pub extern "C" fn port_sang(gcdkm: u32, amind: u32, out: &mut [u32]) -> u32
    ensures { (result ≡ (sang_words gcdkm amind out.old).number) × (out.new ≡ (sang_words gcdkm amind out.old).words) }
{
    port_ionogram::exports::port_sang(gcdkm, amind, out)
}

// state STATE_WORDS words; out: the slot
#[unsafe(no_mangle)]
pub extern "C" fn port_selmod(state: &[u32], out: &mut [u32]) -> u32
    ensures { (result ≡ (port_selmod state.now out.old).number) × (out.new ≡ (port_selmod state.now out.old).words) }
{
    port_ionogram::exports::port_selmod(state, out)
}

// state STATE_WORDS words; out 150: fvert, hprim, htrue, afac, segment
#[unsafe(no_mangle)]
pub extern "C" fn port_genion(state: &[u32], k: u32, out: &mut [u32]) -> u32
    ensures { (result ≡ (port_genion state.now k out.old).number) × (out.new ≡ (port_genion state.now k out.old).words) }
{
    port_ionogram::exports::port_genion(state, k, out)
}

// state STATE_WORDS words, ion 150 as `port_genion` leaves them, layers 44
#[unsafe(no_mangle)]
pub extern "C" fn port_alosfv(state: &[u32], k: u32, ion: &mut [u32], layers: &[u32]) -> u32
    ensures { (result ≡ (port_alosfv state.now k ion.old layers.now).number) × (ion.new ≡ (port_alosfv state.now k ion.old layers.now).words) }
{
    port_ionogram::exports::port_alosfv(state, k, ion, layers)
}

// ion 150 words; cells: thirty an angle
#[unsafe(no_mangle)]
pub extern "C" fn port_fobby(ion: &[u32], nang: u32, cells: &mut [i32]) -> u32
    ensures { (result ≡ (port_fobby ion.now nang cells.old).number) × (cells.new ≡ (port_fobby ion.now nang cells.old).cells) }
{
    port_ionogram::exports::port_fobby(ion, nang, cells)
}

// state STATE_WORDS words, layers 44; cells: thirty an angle; out 200: fvert, hprim, htrue, afac,
// segment, the marks' numbers
#[unsafe(no_mangle)]
pub extern "C" fn port_sheet(
    state: &mut [u32],
    k: u32,
    nang: u32,
    layers: &[u32],
    cells: &mut [i32],
    out: &mut [u32],
) -> u32
    ensures { (result ≡ (port_sheet state.old k nang layers.now cells.old out.old).number)
        × (state.new ≡ (port_sheet state.old k nang layers.now cells.old out.old).state)
        × (cells.new ≡ (port_sheet state.old k nang layers.now cells.old out.old).cells)
        × (out.new ≡ (port_sheet state.old k nang layers.now cells.old out.old).out) }
{
    port_ionogram::exports::port_sheet(state, k, nang, layers, cells, out)
}
