// The line of a layer in a MUF hour, and the E line.
ghost use Rattle.std.specs.Prelude.{◌≡◌};
ghost use Rattle.heights.specs.Gethp.{gethp_of};
ghost use Rattle.layer_mufs.specs.LayerLine.{tenth_of, layer_line_of, zero_line, pair_of, e_heights_with, e_found_of, e_line_of};
ghost use Rattle.layer_mufs.specs.LineSays.{ESays};

use constants::R2D;
use heights::Heights;
use hops::HopGeometry;
use layers::{IonoState, LayerMuf};
use refusal::Refusal;

// Virtual and true height.
#[derive(Clone, Copy, Debug, PartialEq)]
pub struct HeightPair {
    pub hp: f32,
    pub ht: f32,
}

impl From<Heights> for HeightPair {
    // those two of what was read off the profile
    ghost from_gives = { λ h p. p ≡ pair_of h };

    fn from(h: Heights) -> HeightPair {
        HeightPair { hp: h.hp, ht: h.ht }
    }
}

pub fn tenth(muf: f32) -> f32
    ensures { result ≡ tenth_of muf }
{
    scalar::max(0.1 * muf, 0.01)
}

// A layer's line; `del` in radians.
// Stays: sigl, sigu, del, hp, ht, fv, xhops and muf stand in the order of LayerMuf's fields, and
// each caller has them from another place.
pub fn line(
    sigl: f32,
    sigu: f32,
    del: f32,
    hp: f32,
    ht: f32,
    fv: f32,
    xhops: f32,
    muf: f32,
) -> LayerMuf
    ensures { result ≡ layer_line_of sigl sigu del hp ht fv xhops muf }
{
    let nhopmf = scalar::trunc(xhops);
    LayerMuf {
        sigl,
        sigu,
        delmuf: del * R2D,
        hpmuf: hp,
        htmuf: ht,
        fvmuf: fv,
        afmuf: 0.0,
        nhopmf,
        yfot: muf - 1.28 * sigl,
        ymuf: muf,
        yhpf: muf + 1.28 * sigu,
    }
}

// A line of +0.
pub fn zero_line() -> LayerMuf
    ensures { result ≡ zero_line }
{
    LayerMuf::default()
}

// Off the profile, or fixed: those of a parabola that peaks at 110 km and is 20 km in
// semi-thickness.
fn e_heights(t: &IonoState, fxe: f32) -> HeightPair
    ensures { result ≡ e_heights_with gethp_of t.now fxe }
{
    if layers::profile_only(*t) {
        return HeightPair::from(heights::gethp(t, fxe));
    }
    HeightPair {
        hp: 125.30,
        ht: 104.25,
    }
}

// Stays: g is worked out of h and may be refused, here and for the lines of F2 and F1, so that the two are no pair that is kept.
fn e_found(g: HopGeometry, h: HeightPair, fxe: f32) -> LayerMuf
    ensures { result ≡ e_found_of g h fxe }
{
    let emuf = fxe * g.secp;
    let sig = tenth(emuf);
    line(sig, sig, g.del, h.hp, h.ht, fxe, g.xhops, emuf)
}

// Stays: gcdkm and amind are the Rust's, as `hops` takes them; the circuit's four numbers are put together
// in `layer_mufs`, which stands on this crate.
pub fn e_line(t: &IonoState, fxe: f32, gcdkm: f32, amind: f32) -> Result<LayerMuf, Refusal>
    ensures value { result ≡ e_line_of t.now fxe gcdkm amind }
    ensures e_says { ESays result t.now fxe gcdkm amind }
{
    let h = e_heights(t, fxe);
    let g = hops::hop_geometry(gcdkm, amind, h.hp, h.ht, true)?;
    Ok(e_found(g, h, fxe))
}
