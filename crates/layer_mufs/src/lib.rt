// The F2 and F1 lines of a MUF hour.
#![tactic(auto)]

pub mod controlling_slot;
pub mod e_lines;
pub mod tangents;

ghost use Rattle.std.specs.Prelude.{◌≡◌};
ghost use Rattle.heights.specs.Gethp.{gethp_of};
ghost use Rattle.layer_mufs.specs.Lines.{parabolic_of, f2_heights_with, bent_of, deviations_of, f2_bent_of, f2_line_of, f1_found_of, f1_own_with, f1_line_of};
ghost use Rattle.layer_mufs.specs.Says.{DeviationsSay, F2Says, F1Says};

use crate::e_lines::HeightPair;
use crate::tangents::F2Tangent;
use hops::{HopGeometry, Ray, Round};
use layers::{IonoState, LayerMuf};
use profile::slot_curves::Slot;
use refusal::Refusal;

// The numbers of a circuit: path length in radians and in kilometres, least takeoff angle in
// degrees, sunspot number.
#[derive(Clone, Copy, Debug, PartialEq)]
pub struct PathNumbers {
    pub gcd: f32,
    pub gcdkm: f32,
    pub amind: f32,
    pub ssn: f32,
}

// How far the F2 MUF spreads below its median, and above.
#[derive(Clone, Copy, Debug, PartialEq)]
pub struct Deviations {
    pub lower: f32,
    pub upper: f32,
}

// Parabolic F2 over a parabolic E layer.
fn parabolic(l: Slot, x: F2Tangent) -> HeightPair
    ensures { result ≡ parabolic_of l x }
{
    let hp = parabolas::height_over_e(l.fi0, l.yi0, l.fi2, l.yi2, l.hi2, x.fx2);
    let root = scalar::sqrt(1.0 - x.xt2 * x.xt2);
    HeightPair {
        hp,
        ht: l.hi2 - l.yi2 + l.yi2 * (1.0 - root),
    }
}

// By parabolas only if F1 is missing: the closed form is of E and F2 alone.
fn f2_heights(t: &IonoState, l: Slot, x: F2Tangent) -> HeightPair
    ensures { result ≡ f2_heights_with gethp_of t.now l x }
{
    if layers::profile_only(*t) || l.fi1 > 0.0 {
        return HeightPair::from(heights::gethp(t, x.fx2));
    }
    parabolic(l, x)
}

// The rounds of a layer with critical frequency `fc`.
fn bent(fc: f32, fx: f32, h: HeightPair, g: HopGeometry) -> Round
    ensures { result ≡ bent_of fc fx h g }
{
    let p = Ray {
        fc,
        fx,
        hp: h.hp,
        ht: h.ht,
        psi: g.psi,
        cpsi: g.cpsi,
        spsi: g.spsi,
    };
    let start = Round {
        sphe: g.sphe,
        fob: fx * g.secp,
        del: g.del,
        hp: h.hp,
    };
    hops::rounds(p, start)
}

// Stays: f2d, clat and clck, with ssn, are the Rust's own parameters. In a struct that borrows the
// table each clause of those that hand them on would read `d.entry.f2d.now`, which is no plainer.
fn both_deviations(
    f2d: &[f32],
    f2muf: f32,
    ssn: f32,
    clat: f32,
    clck: f32,
) -> Result<Deviations, Refusal>
    ensures value { result ≡ deviations_of f2d.now f2muf ssn clat clck }
    ensures deviations_say { DeviationsSay result f2d.now f2muf ssn clat clck }
{
    let low = deciles::f2dis(f2d, f2muf, ssn, clat, 0.9 * f2muf, clck)?;
    let high = deciles::f2dis(f2d, f2muf, ssn, clat, 1.1 * f2muf, clck)?;
    Ok(Deviations {
        lower: scalar::max(low, 0.01),
        upper: scalar::max(high, 0.01),
    })
}

// The F2 line once its rounds are done.
fn f2_bent(
    f2d: &[f32],
    b: Round,
    ht2: f32,
    fx2: f32,
    xhops: f32,
    ssn: f32,
    clat: f32,
    clck: f32,
) -> Result<LayerMuf, Refusal>
    ensures { result ≡ f2_bent_of f2d.now b ht2 fx2 xhops ssn clat clck }
{
    let f2muf = b.fob;
    let sig = both_deviations(f2d, f2muf, ssn, clat, clck)?;
    Ok(crate::e_lines::line(sig.lower, sig.upper, b.del, b.hp, ht2, fx2, xhops, f2muf))
}

// Stays: t, l, x, f2d, clat, clck and c are no one thing: the profile, its slot, the tangents worked
// out of it, the decile table, the point's latitude and clock, the circuit.
pub fn f2_line(
    t: &IonoState,
    l: Slot,
    x: F2Tangent,
    f2d: &[f32],
    clat: f32,
    clck: f32,
    c: PathNumbers,
) -> Result<LayerMuf, Refusal>
    ensures value { result ≡ f2_line_of t.now l x f2d.now clat clck c }
    ensures f2_says { F2Says result t.now l x f2d.now clat clck c }
{
    let h = f2_heights(t, l, x);
    let g = hops::hop_geometry(c.gcdkm, c.amind, h.hp, h.ht, false)?;
    let b = bent(l.fi2, x.fx2, h, g);
    f2_bent(f2d, b, h.ht, x.fx2, g.xhops, c.ssn, clat, clck)
}

fn f1_found(g: HopGeometry, h: HeightPair, fc: f32, fx1: f32) -> LayerMuf
    ensures { result ≡ f1_found_of g h fc fx1 }
{
    let b = bent(fc, fx1, h, g);
    let sig = crate::e_lines::tenth(b.fob);
    crate::e_lines::line(sig, sig, b.del, b.hp, h.ht, fx1, g.xhops, b.fob)
}

// Where there is an F1 layer.
fn f1_own(t: &IonoState, fc: f32, fx1: f32, c: PathNumbers) -> Result<LayerMuf, Refusal>
    ensures { result ≡ f1_own_with gethp_of t.now fc fx1 c.gcdkm c.amind }
{
    let h = HeightPair::from(heights::gethp(t, fx1));
    let g = hops::hop_geometry(c.gcdkm, c.amind, h.hp, h.ht, true)?;
    Ok(f1_found(g, h, fc, fx1))
}

// Without an F1 the E line again; a NaN counts as an F1 here.
pub fn f1_line(
    t: &IonoState,
    l: Slot,
    fx1: f32,
    e: LayerMuf,
    c: PathNumbers,
) -> Result<LayerMuf, Refusal>
    ensures value { result ≡ f1_line_of t.now l fx1 e c.gcdkm c.amind }
    ensures f1_says { F1Says result t.now l fx1 e c.gcdkm c.amind }
{
    if l.fi1 <= 0.0 {
        return Ok(e);
    }
    f1_own(t, l.fi1, fx1, c)
}
