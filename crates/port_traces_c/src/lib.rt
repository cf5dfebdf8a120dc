// The functions of port_traces for callers in C, with the same contracts.
// Stays: lists side by side, and words lent for what is answered, as callers in C have them.
#![tactic(auto)]

ghost use Rattle.std.specs.Prelude.{◌≡◌};
ghost use Rattle.port_traces.specs.Exports.{port_compare, port_trace};

// The kHz and heights of the first trace, a and ah, and of the second, b and bh; the lines into three lists; out: their count.
#[unsafe(no_mangle)]
pub extern "C" fn port_compare(
    a: &[u32],
    ah: &[u32],
    b: &[u32],
    bh: &[u32],
    khz: &mut [u32],
    which: &mut [u32],
    difference: &mut [i64],
    out: &mut [u32],
) -> u32
    ensures value { result ≡ (port_compare a.now ah.now b.now bh.now khz.old which.old difference.old out.old).number }
    ensures khz_after { khz.new ≡ (port_compare a.now ah.now b.now bh.now khz.old which.old difference.old out.old).khz }
    ensures which_after { which.new ≡ (port_compare a.now ah.now b.now bh.now khz.old which.old difference.old out.old).which }
    ensures difference_after { difference.new ≡ (port_compare a.now ah.now b.now bh.now khz.old which.old difference.old out.old).difference }
    ensures out_after { out.new ≡ (port_compare a.now ah.now b.now bh.now khz.old which.old difference.old out.old).out }
{
    port_traces::port_compare(a, ah, b, bh, khz, which, difference, out)
}

// rows: fvert and hprim of thirty rows, 60 words, with which an ionogram's 150 begin; khz and height: 30 words each.
#[unsafe(no_mangle)]
pub extern "C" fn port_trace(rows: &[u32], khz: &mut [u32], height: &mut [u32]) -> u32
    ensures value { result ≡ (port_trace rows.now khz.old height.old).number }
    ensures khz_after { khz.new ≡ (port_trace rows.now khz.old height.old).khz }
    ensures height_after { height.new ≡ (port_trace rows.now khz.old height.old).height }
{
    port_traces::port_trace(rows, khz, height)
}
