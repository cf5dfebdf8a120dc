// The valley between E and F2, and F1 reshaped so that it joins F2 and leaves E to be seen.
ghost use Rattle.std.specs.Prelude.{◌≡◌};
ghost use Rattle.profile.specs.F1.{asp_of, valley_of, f1_of, reshaped_of};

use crate::slot_curves::{F1Shape, Slot, Valley};

fn slope(fup: f32, flow: f32, hup: f32, hlow: f32) -> f32
    ensures { result ≡ asp_of fup flow hup hlow }
{
    if hup - hlow > 0.0 {
        return (fup - flow) / (hup - hlow);
    }
    0.0
}

pub fn valley(s: Slot) -> Valley
    ensures { result ≡ valley_of s }
{
    let xlow = 0.8516;
    let hz = s.hi0 - s.yi0;
    let xup = 0.98 * s.fi0 / s.fi2;
    let hlow = hz + s.yi0 * (1.0 + scalar::sqrt(1.0 - xlow * xlow));
    let hb2 = s.hi2 - s.yi2;
    let fce = s.fi0 * s.fi0;
    let fc2 = s.fi2 * s.fi2;
    let hup = hb2 + s.yi2 * (1.0 - scalar::sqrt(1.0 - xup * xup));
    let fup = xup * xup * fc2;
    let flow = xlow * xlow * fce;
    let asp = slope(fup, flow, hup, hlow);
    Valley {
        hlow,
        hte: s.hi0 + s.yi0,
        hb2,
        fce,
        fc2,
        hup,
        fup,
        flow,
        asp,
    }
}

// Where F2 reaches F1's critical frequency above F1's peak, F1 stays a parabola; else its peak is
// moved there, and it is a parabola that starts with F2, or a line.
// Stays: -1 is the Rust's number where F1 is a parabola, and is compared and exported as such.
pub fn reshape(s: Slot, v: Valley) -> F1Shape
    ensures { result ≡ f1_of s v }
{
    if s.fi1 > 0.0 {
        let fc1 = s.fi1 * s.fi1;
        let hb1 = s.hi1 - s.yi1;
        let ht1 = s.hi1 + s.yi1;
        let htw = v.hb2 + s.yi2 * (1.0 - scalar::sqrt(1.0 - fc1 / v.fc2));
        if htw > s.hi1 + 0.001 {
            let yi1 = scalar::min(s.yi1, s.hi1 - s.hi0 + 1.0);
            return F1Shape {
                lin: false,
                fc1,
                ht1,
                s1: 0.0,
                hi1: s.hi1,
                yi1,
                fsec: -1.0,
            };
        }
        let ys = scalar::max(htw - hb1, 1.0);
        let s1 = fc1 / ys;
        if v.hb2 - hb1 < 0.0 {
            let yi1 = scalar::min(htw - v.hb2, htw - s.hi0 + 1.0);
            return F1Shape {
                lin: false,
                fc1,
                ht1,
                s1,
                hi1: htw,
                yi1,
                fsec: -1.0,
            };
        }
        let ratio = s.fi0 / s.fi1;
        let yb = (htw - s.hi0) / scalar::max(1.0 - ratio * ratio, 0.17);
        let fsec = scalar::sqrt(v.flow);
        if ys - yb >= 0.0 {
            return F1Shape {
                lin: true,
                fc1,
                ht1: htw,
                s1: fc1 / yb,
                hi1: htw,
                yi1: yb,
                fsec,
            };
        }
        return F1Shape {
            lin: true,
            fc1,
            ht1: htw,
            s1,
            hi1: htw,
            yi1: ys,
            fsec,
        };
    }
    F1Shape {
        lin: false,
        fc1: 0.0,
        ht1: 0.0,
        s1: 0.0,
        hi1: s.hi1,
        yi1: s.yi1,
        fsec: s.fsec,
    }
}

pub fn reshaped(s: Slot, f: F1Shape) -> Slot
    ensures { result ≡ reshaped_of s f }
{
    Slot {
        yi1: f.yi1,
        hi1: f.hi1,
        fsec: f.fsec,
        ..s
    }
}
