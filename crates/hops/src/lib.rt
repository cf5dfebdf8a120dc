// The hops of a path by one layer, their angles, and the rounds that correct the MUF for bending.
#![tactic(auto)]

ghost use Rattle.std.specs.Prelude.{◌≡◌};
ghost use Rattle.hops.specs.Geometry.{hop_ratio_of, hops_of, HopsSay, psi_of, del_of, sphe_of, secp_of, hop_geometry_of, geometry_of, GeometrySays};
ghost use Rattle.hops.specs.Rounds.{sph_of, round_of, settled_of, rounds_of};

use constants::{D2R, PIO2, RZ};
use refusal::Refusal;

#[derive(Clone, Copy, Debug, PartialEq)]
pub struct HopGeometry {
    pub secp: f32,
    pub sphe: f32,
    // takeoff angle, radians
    pub del: f32,
    pub xhops: f32,
    // half the angle that a hop takes at the Earth's centre, its cosine and sine
    pub psi: f32,
    pub cpsi: f32,
    pub spsi: f32,
}

// What the rounds of one layer hold to: critical frequency, tangent frequency, heights, and the
// geometry of the first pass.
// Stays: the seven numbers that a round reads, out of the eleven of a geometry and its heights, by the Rust's names.
#[derive(Clone, Copy, Debug, PartialEq)]
pub struct Ray {
    pub fc: f32,
    pub fx: f32,
    pub hp: f32,
    pub ht: f32,
    pub psi: f32,
    pub cpsi: f32,
    pub spsi: f32,
}

// What a round hands to the next.
#[derive(Clone, Copy, Debug, PartialEq)]
pub struct Round {
    pub sphe: f32,
    pub fob: f32,
    pub del: f32,
    pub hp: f32,
}

// The hop count before it is cut to a whole number.
fn hop_ratio(gcdkm: f32, amind: f32, h: f32) -> f32
    ensures { result ≡ hop_ratio_of gcdkm amind h }
{
    let dele = scalar::max(amind, 0.0);
    let del = dele * D2R;
    let phe = arcs::asin(incidence(del, h));
    0.5 * gcdkm / ((PIO2 - del - phe) * RZ)
}

// The hops that reach `gcdkm` at the least takeoff angle by a layer at height `h`.
pub fn hop_count(gcdkm: f32, amind: f32, h: f32) -> Result<f32, Refusal>
    ensures value { result ≡ hops_of gcdkm amind h }
    ensures hops_say { HopsSay result gcdkm amind h }
{
    let nhops = scalar::trunc(hop_ratio(gcdkm, amind, h));
    if !(0..=999).contains(&nhops) {
        return Err(Refusal::MufHops);
    }
    let xhops = (nhops + 1) as f32;
    Ok(xhops)
}

// Divided in two steps for E and F1 and in one for F2, as the Rust does: the last bits differ.
// Stays: `split_first` is the Rust's own parameter, beside which a reader holds ours.
fn half_angle(gcdkm: f32, xhops: f32, split_first: bool) -> f32
    ensures { result ≡ psi_of gcdkm xhops split_first }
{
    if split_first {
        let p = gcdkm / (2.0 * RZ);
        return p / xhops;
    }
    gcdkm / ((2.0 * RZ) * xhops)
}

// The takeoff angle to a virtual height.
fn takeoff(psi: f32, cpsi: f32, spsi: f32, hp: f32) -> f32
    ensures { result ≡ del_of psi cpsi spsi hp }
{
    let tanp = spsi / (1.0 - cpsi + hp / RZ);
    let phe = arcs::atan(tanp);
    PIO2 - phe - psi
}

// The sine of the ray's angle at the true height.
fn incidence(del: f32, ht: f32) -> f32
    ensures { result ≡ sphe_of del ht }
{
    let cdel = waves::cos(del);
    RZ * cdel / (RZ + ht)
}

pub fn secant(sphe: f32) -> f32
    ensures { result ≡ secp_of sphe }
{
    1.0 / scalar::sqrt(1.0 - sphe * sphe)
}

// The geometry once the number of hops is known.
fn hop_angles(gcdkm: f32, xhops: f32, hp: f32, ht: f32, split_first: bool) -> HopGeometry
    ensures { result ≡ hop_geometry_of gcdkm xhops hp ht split_first }
{
    let psi = half_angle(gcdkm, xhops, split_first);
    let cpsi = waves::cos(psi);
    let spsi = waves::sin(psi);
    let del = takeoff(psi, cpsi, spsi, hp);
    let sphe = incidence(del, ht);
    let secp = secant(sphe);
    HopGeometry {
        secp,
        sphe,
        del,
        xhops,
        psi,
        cpsi,
        spsi,
    }
}

// Stays: gcdkm, amind, hp, ht and split_first are the Rust's own parameters, in its order.
pub fn hop_geometry(
    gcdkm: f32,
    amind: f32,
    hp: f32,
    ht: f32,
    split_first: bool,
) -> Result<HopGeometry, Refusal>
    ensures value { result ≡ geometry_of gcdkm amind hp ht split_first }
    ensures geometry_says { GeometrySays result gcdkm amind hp ht split_first }
{
    let xhops = hop_count(gcdkm, amind, hp)?;
    Ok(hop_angles(gcdkm, xhops, hp, ht, split_first))
}

// What the virtual height needs beyond Martyn's theorem, at the frequency of the round before.
fn correction(p: Ray, t: Round) -> f32
    ensures { result ≡ sph_of p t }
{
    let xhp = (p.hp - p.ht) / RZ;
    let xmut = t.sphe * t.sphe;
    let xfsq = t.fob * t.fob / (p.fc * p.fc);
    xfsq * xmut * xhp * (p.ht + 2.0 * (RZ + p.ht) * xhp)
}

fn one_round(p: Ray, t: Round) -> Round
    ensures { result ≡ round_of p t }
{
    let hp = p.hp + correction(p, t);
    let del = takeoff(p.psi, p.cpsi, p.spsi, hp);
    let sphe = incidence(del, p.ht);
    let fob = p.fx * secant(sphe);
    Round { sphe, fob, del, hp }
}

fn settled(fob2: f32, fob1: f32) -> bool
    ensures { result ≡ settled_of fob2 fob1 }
{
    scalar::abs(fob2 - fob1) - 0.1 <= 0.0
}

// At least one round; no more after a change of at most 0.1 MHz, nor after the fifth.
// Stays: the loop whose `break` hands out the frequency is a form that the paper names.
pub fn rounds(p: Ray, start: Round) -> Round
    ensures { result ≡ rounds_of p 5 start }
{
    let mut t = start;
    let mut ntry: usize = 0;
    let fob = loop {
        let fob1 = t.fob;
        t = one_round(p, t);
        ntry += 1;
        if settled(t.fob, fob1) {
            break t.fob;
        }
        if 4 < ntry {
            break t.fob;
        }
    };
    Round { fob, ..t }
}
