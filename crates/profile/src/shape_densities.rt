// The densities of a slot's five shapes at its heights.
ghost use Rattle.std.specs.Prelude.{◌≡◌, ◌+◌, ◌≤◌, ◌++◌, map, take, drop};
ghost use Rattle.profile.specs.Density.{fnd_of, density_of};

mod density;

use std::simd::prelude::*;

// All that the five shapes use.
// Stays: `lin` and `s1` are two numbers of the Rust, each with its value on every path: a slope is worked out for some parabolas too.
#[derive(Clone, Copy, Debug, PartialEq)]
pub struct Curves {
    pub hlow: f32,
    pub hup: f32,
    pub fup: f32,
    pub asp: f32,
    pub hex: f32,
    pub hte: f32,
    pub fce: f32,
    pub hi0: f32,
    pub yi0: f32,
    pub fsq: f32,
    pub alp: f32,
    pub fi1: f32,
    pub hb1: f32,
    pub ht1: f32,
    pub lin: bool,
    pub s1: f32,
    pub hi1: f32,
    pub yi1: f32,
    pub fc1: f32,
    pub hb2v: f32,
    pub fc2: f32,
    pub hi2: f32,
    pub yi2: f32,
}

// The density of each shape at one height.
#[derive(Clone, Copy, Debug, PartialEq)]
pub struct Candidates {
    pub fnd: f32,
    pub fne: f32,
    pub fnval: f32,
    pub fn1: f32,
    pub fn2: f32,
}

impl Curves {
    // The tail's densities, in a loop of their own: what is left of a density has no call.
    pub fn tails(self, mut htr: [f32; 50]) -> [f32; 50]
        ensures { result ≡ map (fnd_of self) htr }
    {
        for h in &mut htr {
            *h = self.tail_density(*h);
        }
        htr
    }

    // N heights from the i-th on: where the tail's densities stood stand the largest of the five.
    // Stays: the heights and their densities are lists side by side, as the Rust has `htr` and `fn`.
    fn raise<const N: usize>(self, htr: &[f32; 50], d: &mut [f32; 50], i: usize)
        requires { (i + N ≤ 50)
            × (d.old ≡ map (density_of self) (take i htr.now) ++ map (fnd_of self) (drop i htr.now)) }
        ensures { d.new ≡ map (density_of self) (take (i + N) htr.now) ++ map (fnd_of self) (drop (i + N) htr.now) }
    {
        let h = Simd::<f32, N>::from_slice(&htr[i..i + N]);
        let d = &mut d[i..i + N];
        self.density(Simd::from_slice(d), h).copy_to_slice(d);
    }

    // A vector has a power of two of lanes.
    pub fn densities(self, htr: [f32; 50]) -> [f32; 50]
        ensures { result ≡ map (density_of self) htr }
    {
        let mut d = self.tails(htr);
        self.raise::<32>(&htr, &mut d, 0);
        self.raise::<16>(&htr, &mut d, 32);
        self.raise::<2>(&htr, &mut d, 48);
        d
    }
}
