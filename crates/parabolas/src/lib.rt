// What bending and delay in a parabolic layer come to.
#![tactic(auto)]

ghost use Rattle.std.specs.Prelude.{◌≡◌, ℕ, ◌+◌, ◌*◌, ◌<◌, ltb, IfOk};
ghost use Rattle.parabolas.specs.Bendy.{bendy_at, pen_at, height_over_e, bendy_of, pen_of, layer_answer_by, bendy_answer, pen_answer, LayerSays};

use layers::IonoState;
use refusal::Refusal;

// Of a layer with critical frequency `fi` and semi-thickness `yi`.
pub fn bendy_at(fi: f32, yi: f32, f: f32) -> f32
    ensures { result ≡ bendy_at fi yi f }
{
    let x = scalar::min(f / fi, 0.999);
    let l = logarithm::ln((1.0 + x) / (1.0 - x));
    0.5 * x * yi * l
}

pub fn pen_at(fi: f32, yi: f32, f: f32) -> f32
    ensures { result ≡ pen_at fi yi f }
{
    let x = scalar::max(f / fi, 1.001);
    let l = logarithm::ln((1.0 + x) / (x - 1.0));
    yi * l * x
}

// The virtual height of a frequency that an F2 reflects: bent by it, and delayed in the E layer under it
// instead of crossing that in a straight line.
// Stays: five numbers of two layers. A `Slot` has them, and would make this crate stand on `slot_curves`; a struct of the five would be
// made for each call and taken apart here.
pub fn height_over_e(fi0: f32, yi0: f32, fi2: f32, yi2: f32, hi2: f32, f: f32) -> f32
    ensures { result ≡ height_over_e fi0 yi0 fi2 yi2 hi2 f }
{
    let bend = bendy_at(fi2, yi2, f);
    let pass = pen_at(fi0, yi0, f);
    hi2 - yi2 + bend + (pass - 2.0 * yi0)
}

// The place of layer i of slot k in the tables, where there is one.
// Stays: not by `layers::slot_number`, since a layer's number is refused with the slot's.
fn place(i: usize, k: usize) -> Result<usize, Refusal>
    ensures value { result ≡ layer_answer_by (ltb 2 i) (ltb 2 k) (3 * k + i) }
    ensures within { IfOk result (λ (n : ℕ). n < 15) }
{
    if i > 2 || k > 2 {
        return Err(Refusal::SlotNumber);
    }
    Ok(3 * k + i)
}

// How much the virtual height of a frequency is raised by the parabolic layer `i` of slot `k` that
// reflects it.
// Stays: `bendy` and `pen` are two entries of the Rust, each with a formula of its own behind the same test,
// and `s`, `i`, `k` and `f` are their parameters there.
pub fn bendy(s: IonoState, i: usize, k: usize, f: f32) -> Result<f32, Refusal>
    ensures value { result ≡ bendy_answer s i k f }
    ensures layer_says { LayerSays result i k (bendy_of s i k f) }
{
    let n = place(i, k)?;
    Ok(bendy_at(s.fi[n], s.yi[n], f))
}

// The same for a frequency that the layer lets through, delayed, to a higher one.
pub fn pen(s: IonoState, i: usize, k: usize, f: f32) -> Result<f32, Refusal>
    ensures value { result ≡ pen_answer s i k f }
    ensures layer_says { LayerSays result i k (pen_of s i k f) }
{
    let n = place(i, k)?;
    Ok(pen_at(s.fi[n], s.yi[n], f))
}
