// The functions of port_muf for callers in C, with the same contracts.
// Stays: the lists of words stand side by side as C lends them.
#![tactic(auto)]

ghost use Rattle.std.specs.Prelude.{◌≡◌};
ghost use Rattle.port_muf.specs.F2disWords.{f2dis_left};
ghost use Rattle.port_muf.specs.Exports.{leaves, curmuf_left};

// deciles 576; numbers: fmuf, ssn, clat, freq, abb; out: the deviation
#[unsafe(no_mangle)]
pub extern "C" fn port_f2dis(deciles: &[f32], numbers: &[u32], out: &mut [u32]) -> u32
    ensures { (result ≡ (f2dis_left deciles.now numbers.now out.old).number) × (out.new ≡ (f2dis_left deciles.now numbers.now out.old).words) }
{
    port_muf::port_f2dis(deciles, numbers, out)
}

// state STATE_WORDS words; es 4 words a row: fs 3, hs; deciles 576; numbers: gcd, gcdkm, amind, ssn;
// out 54: the hour's numbers, its mode and controlling slot, four lines of eleven words
#[unsafe(no_mangle)]
pub extern "C" fn port_curmuf(
    state: &mut [u32],
    es: &mut [u32],
    deciles: &[f32],
    clat: &[u32],
    clck: &[u32],
    numbers: &[u32],
    out: &mut [u32],
) -> u32
    ensures { leaves result state.new es.new out.new ≡ curmuf_left state.old es.old deciles.now clat.now clck.now numbers.now out.old }
{
    port_muf::hour::port_curmuf(state, es, deciles, clat, clck, numbers, out)
}
