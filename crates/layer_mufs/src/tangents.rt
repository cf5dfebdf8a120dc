// The tangent frequencies of a slot's layers.
ghost use Rattle.std.specs.Prelude.{◌≡◌};
ghost use Rattle.layer_mufs.specs.Tangents.{xt_of, fx1_of, beta_of, f2_tangent_of, tangents_of};

use profile::slot_curves::Slot;

// F2's tangent frequency, and its ratio to the critical one.
#[derive(Clone, Copy, Debug, PartialEq)]
pub struct F2Tangent {
    pub fx2: f32,
    pub xt2: f32,
}

#[derive(Clone, Copy, Debug, PartialEq)]
pub struct Tangents {
    pub fxe: f32,
    pub fx1: f32,
    pub f2: F2Tangent,
}

// The tangent frequency of a layer over its critical one.
fn tangent_ratio(y: f32, h: f32) -> f32
    ensures { result ≡ xt_of y h }
{
    1.0 / scalar::sqrt(1.0 + 0.5 * y / h)
}

// 0 without an F1; a NaN counts as none. Stays: the 0 is the Rust's, and an `Option` could not say of a
// NaN that it is none here and an F1 to `f1_line`.
fn f1_tangent(l: Slot) -> f32
    ensures { result ≡ fx1_of l }
{
    if l.fi1 > 0.0 {
        let xt1 = tangent_ratio(l.yi1, l.hi1);
        return xt1 * l.fi1;
    }
    0.0
}

// The factor that lifts the F2 tangent frequency towards the critical one as a path gets short.
fn short_path(xt2: f32, gcdkm: f32) -> f32
    ensures { result ≡ beta_of xt2 gcdkm }
{
    let a = -1.0 + 1.0 / xt2;
    1.0 + a * exponential::exp(-9.5 * gcdkm / 2000.0)
}

fn f2_tangent(l: Slot, gcdkm: f32) -> F2Tangent
    ensures { result ≡ f2_tangent_of l gcdkm }
{
    let xt2 = tangent_ratio(l.yi2, l.hi2);
    let fx2 = xt2 * l.fi2;
    if gcdkm - 2000.0 < 0.0 {
        let beta = short_path(xt2, gcdkm);
        return F2Tangent {
            fx2: fx2 * beta,
            xt2: xt2 * beta,
        };
    }
    F2Tangent { fx2, xt2 }
}

pub fn tangent_frequencies(l: Slot, gcdkm: f32) -> Tangents
    ensures { result ≡ tangents_of l gcdkm }
{
    let xte = tangent_ratio(l.yi0, l.hi0);
    let fx1 = f1_tangent(l);
    let f2 = f2_tangent(l, gcdkm);
    Tangents {
        fxe: xte * l.fi0,
        fx1,
        f2,
    }
}
