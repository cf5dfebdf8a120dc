// The functions of port_nominal for callers in C, with the same contracts.
// Stays: the lists of words stand side by side as C lends them.
#![tactic(auto)]

ghost use Rattle.std.specs.Prelude.{◌≡◌};
ghost use Rattle.port_muf.specs.NominalExports.{nominal_left};

// points 9 words each: fi, yi, hi; f2m3 a word a point; es 4 words a row: fs 3, hs; numbers: gcd,
// gcdkm; out 54: the hour, as `port_curmuf` writes it
#[unsafe(no_mangle)]
pub extern "C" fn port_nommuf(
    points: &[u32],
    f2m3: &[u32],
    es: &[u32],
    numbers: &[u32],
    out: &mut [u32],
) -> u32
    ensures { (result ≡ (nominal_left points.now f2m3.now es.now numbers.now out.old).number) × (out.new ≡ (nominal_left points.now f2m3.now es.now numbers.now out.old).words) }
{
    port_muf::port_nominal::port_nommuf(points, f2m3, es, numbers, out)
}
