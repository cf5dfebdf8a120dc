// The plasma frequency squared at N heights: the largest of the five shapes, each 0 outside its own range.
// Heights are lanes of a vector, since the compiler makes no vector instructions of a step that compares floats and does more; a height
// alone is a vector of one lane. Both values of a shape are worked out before one is picked, but for the tail, which calls
// `exp` only where it counts.
// Stays: the shapes, `self`, are read together with the heights `h` and are no one thing: fifty heights are read with the same
// shapes.
ghost use Rattle.std.specs.Prelude.{◌≡◌, map};
ghost use Rattle.std.specs.Simd.Lanes.{zip2};
ghost use Rattle.scalar.specs.Scalar.{max_of};
ghost use Rattle.profile.specs.Density.{fnval_of, parabola_of, fne_of, fnd_of, fn1_of, fn2_of, candidates_by, largest_of, density_of};

use crate::shape_densities::{Candidates, Curves};
use std::simd::prelude::*;

// `scalar::max` at each lane.
fn max<const N: usize>(a: Simd<f32, N>, b: Simd<f32, N>) -> Simd<f32, N>
    ensures { result ≡ zip2 max_of a.entry b.entry }
{
    (a.simd_ne(a) | b.simd_gt(a)).select(b, a)
}

fn largest<const N: usize>(
    fnd: Simd<f32, N>,
    fne: Simd<f32, N>,
    fnval: Simd<f32, N>,
    fn1: Simd<f32, N>,
    fn2: Simd<f32, N>,
) -> Simd<f32, N>
    ensures { result
        ≡ zip2 max_of (zip2 max_of (zip2 max_of (zip2 max_of fnd.entry fne.entry) fnval.entry) fn1.entry) fn2.entry }
{
    max(max(max(max(fnd, fne), fnval), fn1), fn2)
}

fn parabola<const N: usize>(fc: f32, hi: f32, yi: f32, h: Simd<f32, N>) -> Simd<f32, N>
    ensures { result ≡ map (parabola_of fc hi yi) h.entry }
{
    let z = (h - Simd::splat(hi)) / Simd::splat(yi);
    Simd::splat(fc) * (Simd::splat(1.0) - z * z)
}

impl Curves {
    fn valley_density<const N: usize>(self, h: Simd<f32, N>) -> Simd<f32, N>
        ensures { result ≡ map (fnval_of self) h.entry }
    {
        let zero = Simd::splat(0.0);
        let hlow = Simd::splat(self.hlow);
        let hup = Simd::splat(self.hup);
        let within = (h - hlow).simd_gt(zero) & (h - hup).simd_lt(zero);
        let line = Simd::splat(self.fup) + Simd::splat(self.asp) * (h - hup);
        within.select(line, zero)
    }

    fn e_layer<const N: usize>(self, h: Simd<f32, N>) -> Simd<f32, N>
        ensures { result ≡ map (fne_of self) h.entry }
    {
        let zero = Simd::splat(0.0);
        let within = (h - Simd::splat(self.hex)).simd_ge(zero)
            & (h - Simd::splat(self.hte)).simd_le(zero);
        let curve = parabola(self.fce, self.hi0, self.yi0, h);
        within.select(curve, zero)
    }

    pub fn tail_density(self, h: f32) -> f32
        ensures { result ≡ fnd_of self h }
    {
        if h - self.hex >= 0.0 {
            return 0.0;
        }
        self.fce * self.fsq * exponential::exp(self.alp * (h - 70.0))
    }

    fn f1_layer<const N: usize>(self, h: Simd<f32, N>) -> Simd<f32, N>
        ensures { result ≡ map (fn1_of self) h.entry }
    {
        let zero = Simd::splat(0.0);
        let within = Simd::splat(self.fi1).simd_gt(zero)
            & ((Simd::splat(self.hb1) - h).simd_le(zero)
                & (h - Simd::splat(self.ht1)).simd_le(zero));
        let line = Simd::splat(self.s1) * (h - Simd::splat(self.hi1 - self.yi1));
        let curve = parabola(self.fc1, self.hi1, self.yi1, h);
        let shape = if self.lin { line } else { curve };
        within.select(shape, zero)
    }

    fn f2_layer<const N: usize>(self, h: Simd<f32, N>) -> Simd<f32, N>
        ensures { result ≡ map (fn2_of self) h.entry }
    {
        let zero = Simd::splat(0.0);
        let within = (Simd::splat(self.hb2v) - h).simd_le(zero);
        let curve = parabola(self.fc2, self.hi2, self.yi2, h);
        within.select(curve, zero)
    }

    // The tail's densities there given.
    pub(crate) fn density<const N: usize>(self, fnd: Simd<f32, N>, h: Simd<f32, N>) -> Simd<f32, N>
        requires { fnd ≡ map (fnd_of self) h }
        ensures { result ≡ map (density_of self) h.entry }
    {
        largest(
            fnd,
            self.e_layer(h),
            self.valley_density(h),
            self.f1_layer(h),
            self.f2_layer(h),
        )
    }

    // The five at a height, the tail's density there given.
    pub fn candidates(self, fnd: f32, h: f32) -> Candidates
        ensures { result ≡ candidates_by fnd self h }
    {
        let h = f32x1::splat(h);
        Candidates {
            fnd,
            fne: self.e_layer(h)[0],
            fnval: self.valley_density(h)[0],
            fn1: self.f1_layer(h)[0],
            fn2: self.f2_layer(h)[0],
        }
    }
}

impl Candidates {
    pub fn largest(self) -> f32
        ensures { result ≡ largest_of self }
    {
        largest(
            f32x1::splat(self.fnd),
            f32x1::splat(self.fne),
            f32x1::splat(self.fnval),
            f32x1::splat(self.fn1),
            f32x1::splat(self.fn2),
        )[0]
    }
}
