// The functions of port_heights for callers in C, with the same contracts.
// Stays: lists of words lent side by side, as callers in C have them.
#![tactic(auto)]

ghost use Rattle.std.specs.Prelude.{◌≡◌};
ghost use Rattle.port_heights.specs.Exports.{gethp_left, gethp_scan_left, reading_left, bendy_left, pen_left, xlin_left};

// state STATE_WORDS words; out: hp, ht, cursor, segment
#[unsafe(no_mangle)]
pub extern "C" fn port_gethp(state: &[u32], fxx: u32, out: &mut [u32]) -> u32
    ensures { (result ≡ (gethp_left state.now fxx out.old).number) × (out.new ≡ (gethp_left state.now fxx out.old).words) }
{
    port_heights::port_gethp(state, fxx, out)
}

// the same by forty scans on every profile
#[unsafe(no_mangle)]
pub extern "C" fn port_gethp_scan(state: &[u32], fxx: u32, out: &mut [u32]) -> u32
    ensures { (result ≡ (gethp_scan_left state.now fxx out.old).number) × (out.new ≡ (gethp_scan_left state.now fxx out.old).words) }
{
    port_heights::port_gethp_scan(state, fxx, out)
}

// the density at the height zi, by a scan; out: the kind (floor 0, segment 1, top 2), the density, the segment
#[unsafe(no_mangle)]
pub extern "C" fn port_reading(state: &[u32], zi: u32, out: &mut [u32]) -> u32
    ensures { (result ≡ (reading_left state.now zi out.old).number) × (out.new ≡ (reading_left state.now zi out.old).words) }
{
    port_heights::port_reading(state, zi, out)
}

// layer i of slot k; out: the value
#[unsafe(no_mangle)]
pub extern "C" fn port_bendy(state: &[u32], i: u32, k: u32, f: u32, out: &mut [u32]) -> u32
    ensures { (result ≡ (bendy_left state.now i k f out.old).number) × (out.new ≡ (bendy_left state.now i k f out.old).words) }
{
    port_heights::port_bendy(state, i, k, f, out)
}

#[unsafe(no_mangle)]
pub extern "C" fn port_pen(state: &[u32], i: u32, k: u32, f: u32, out: &mut [u32]) -> u32
    ensures { (result ≡ (pen_left state.now i k f out.old).number) × (out.new ≡ (pen_left state.now i k f out.old).words) }
{
    port_heights::port_pen(state, i, k, f, out)
}

// xn and yn 50 words each; out: the value, the segment
#[unsafe(no_mangle)]
pub extern "C" fn port_xlin(x: u32, xn: &[u32], yn: &[u32], out: &mut [u32]) -> u32
    ensures { (result ≡ (xlin_left x xn.now yn.now out.old).number) × (out.new ≡ (xlin_left x xn.now yn.now out.old).words) }
{
    port_heights::port_xlin(x, xn, yn, out)
}
