// A slot's shapes drawn from its numbers: the valley, F1 reshaped, the tail, the fifty heights.
mod f1;
mod grid;

ghost use Rattle.std.specs.Prelude.{◌≡◌};
ghost use Rattle.profile.specs.Draw.{tail_of, curves_of, drawn_of};

use crate::shape_densities::Curves;
pub use grid::fill;

// One slot's layers, the Rust's `fi[k][0]` as `fi0`.
// Stays: one slot's row of the flat tables, with a name for each number that `lecden` reads, as the formulas have them.
#[derive(Clone, Copy, Debug, PartialEq)]
pub struct Slot {
    pub fi0: f32,
    pub fi1: f32,
    pub fi2: f32,
    pub yi0: f32,
    pub yi1: f32,
    pub yi2: f32,
    pub hi0: f32,
    pub hi1: f32,
    pub hi2: f32,
    pub fsec: f32,
}

// The valley between E and F2: the density goes in a straight line from flow, at the height hlow,
// to fup, at hup.
#[derive(Clone, Copy, Debug, PartialEq)]
pub struct Valley {
    pub hlow: f32,
    pub hte: f32,
    pub hb2: f32,
    pub fce: f32,
    pub fc2: f32,
    pub hup: f32,
    pub fup: f32,
    pub flow: f32,
    pub asp: f32,
}

// The F1 layer reshaped: linear or parabolic, and what it leaves in the slot.
// Stays: `lin` and `s1` are two numbers of the Rust, each with its value on every path: a slope is worked out for some parabolas too.
#[derive(Clone, Copy, Debug, PartialEq)]
pub struct F1Shape {
    pub lin: bool,
    pub fc1: f32,
    pub ht1: f32,
    pub s1: f32,
    pub hi1: f32,
    pub yi1: f32,
    pub fsec: f32,
}

// The exponential tail under E, from the height hex down.
#[derive(Clone, Copy, Debug, PartialEq)]
pub struct Tail {
    pub hex: f32,
    pub alp: f32,
    pub fsq: f32,
}

// A slot's shapes, ready to be read at its heights: the slot reshaped, all that the shapes use, and
// the fifty heights.
#[derive(Clone, Copy, Debug, PartialEq)]
pub struct Drawn {
    pub slot: Slot,
    pub curves: Curves,
    pub htr: [f32; 50],
}

fn tail_of(s: Slot) -> Tail
    ensures { result ≡ tail_of s }
{
    let hd = 70.0;
    let xtail = 0.85;
    let hex = s.hi0 - xtail * s.yi0;
    let fnx = 1.0 - xtail * xtail;
    let alp = 2.0 * (s.hi0 - hex) / (fnx * s.yi0 * s.yi0);
    let fsq = fnx * exponential::exp(-alp * (hex - hd));
    Tail { hex, alp, fsq }
}

// Stays: number by number, since `Curves` has them flat: fifty heights are read with the same ones.
fn curves_of(s: Slot, v: Valley, f: F1Shape, t: Tail) -> Curves
    ensures { result ≡ curves_of s v f t }
{
    let hb1 = scalar::max(s.hi0, s.hi1 - s.yi1);
    Curves {
        hlow: v.hlow,
        hup: v.hup,
        fup: v.fup,
        asp: v.asp,
        hex: t.hex,
        hte: v.hte,
        fce: v.fce,
        hi0: s.hi0,
        yi0: s.yi0,
        fsq: t.fsq,
        alp: t.alp,
        fi1: s.fi1,
        hb1,
        ht1: f.ht1,
        lin: f.lin,
        s1: f.s1,
        hi1: s.hi1,
        yi1: s.yi1,
        fc1: f.fc1,
        hb2v: s.hi2 - s.yi2,
        fc2: v.fc2,
        hi2: s.hi2,
        yi2: s.yi2,
    }
}

// Of a slot as `lecden` finds it: what is drawn of the slot that it leaves may be another F1.
pub fn draw(p: Slot) -> Drawn
    ensures { result ≡ drawn_of p }
{
    let v = f1::valley(p);
    let f = f1::reshape(p, v);
    let q = f1::reshaped(p, f);
    let t = tail_of(q);
    let htr = grid::heights(q, t.hex);
    let curves = curves_of(q, v, f, t);
    Drawn {
        slot: q,
        curves,
        htr,
    }
}
