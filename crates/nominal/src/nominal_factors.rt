// The numbers of `nommuf` that need no list: the distance factors, what one point does to the
// lowest of each layer, which MUF is the circuit's, and the test of the counts.
ghost use Rattle.std.specs.Prelude.{◌≡◌};
ghost use Rattle.scalar.specs.F32.{at};
ghost use Rattle.nominal.specs.Factors.{horner_of, elfc_of, flfc_of, ec_step, fmuf_of, f2_step, allmuf_of, counts_agree};

// The coefficients of the distance factors, those of the distance's first power first: the E
// layer's and the F2 layer's.
const AE: [f32; 7] = [
    -0.01133200756,
    0.03761385053,
    -0.005038476266,
    0.0002624808315,
    -0.000005976618436,
    0.0000001334494261,
    -0.000000004368460907,
];

const AF: [f32; 7] = [
    0.004699243101,
    0.002264634341,
    0.00009202437332,
    0.00006865259817,
    -0.000009985831104,
    0.000000449151441,
    -0.000000006712654756,
];

#[tactic(auto, unfolding(crate::specs::Factors::horner_of))]
fn horner(a: [f32; 7], arc: f32) -> f32
    ensures { result ≡ horner_of a arc 6 (at a 6) }
{
    let [a0, a1, a2, a3, a4, a5, a6] = a;
    (((((a6 * arc + a5) * arc + a4) * arc + a3) * arc + a2) * arc + a1) * arc + a0
}

// The E layer's distance factor, at arc hundreds of miles.
pub fn e_factor(arc: f32) -> f32
    ensures { result ≡ elfc_of arc }
{
    if arc < 16.0 {
        return horner(AE, arc) * arc + 0.2085;
    }
    1.02
}

// The F2 layer's.
pub fn f2_factor(arc: f32) -> f32
    ensures { result ≡ flfc_of arc }
{
    if 24.0 <= arc {
        return 1.0;
    }
    horner(AF, arc) * arc
}

// A point's turn in a lowest number over the points: E's critical frequency, F2's MUF. A NaN is left out.
// Stays: not `scalar::min`, which answers otherwise where the lowest so far is a NaN.
pub fn lower(lowest: f32, x: f32) -> f32
    ensures e { result ≡ ec_step lowest x }
    ensures f2 { result ≡ f2_step lowest x }
{
    if lowest > x {
        return x;
    }
    lowest
}

// The MUF of F2 at one point.
pub fn f2_at(f2: f32, m3: f32, flfc: f32) -> f32
    ensures { result ≡ fmuf_of f2 m3 flfc }
{
    let four = m3 * f2 * 1.1;
    f2 + flfc * (four - f2)
}

// The circuit's MUF: E's where the two are equal. Stays: not `scalar::max`, which answers otherwise where
// F2's is a NaN.
pub fn greater(emuf: f32, f2muf: f32) -> f32
    ensures { result ≡ allmuf_of emuf f2muf }
{
    if emuf >= f2muf {
        return emuf;
    }
    f2muf
}

// 1 to 5 points, and an F2M3 for each.
#[tactic(auto, unfolding(crate::specs::Factors::counts_agree))]
pub fn counts_agree(km: usize, f2m3s: usize) -> bool
    ensures { result ≡ counts_agree km f2m3s }
{
    layers::layer_rules::count_taken(km) && f2m3s == km
}
