// What the forty densities of the Gauss rule come to: each over the squared frequency, cut, and 1 over
// the root of what it leaves of 1. Each step is made for all forty before the next, so that the compiler
// makes vector instructions of each; floats are compared in a step of their own, which does nothing else.
ghost use Rattle.std.specs.Prelude.{◌≡◌, map, ℕ, ◌<◌, T};
ghost use Rattle.scalar.specs.F32.{◌≤f◌, at};
ghost use Rattle.scalar.specs.Literals.{f0_9999};
ghost use Rattle.scalar.specs.Scalar.{min_of};
ghost use Rattle.heights.specs.Integrands.{share_of, integrand_of};

use std::array::from_fn;

// Cut at 0.9999; a NaN becomes 0.9999.
// Stays: one test where `scalar::min` has two, of which the compiler makes no vector instructions.
fn cut(x: f32) -> f32
    ensures { (result ≡ min_of x f0_9999) × T (result ≤f f0_9999) }
{
    if x <= 0.9999 { x } else { 0.9999 }
}

// Each density's share of `fr`, cut.
pub fn shares(densities: [f32; 40], fr: f32) -> [f32; 40]
    ensures shares { result ≡ map (λ d. share_of d fr) densities }
    ensures cut { (k : ℕ) → k < 40 → T (at result k ≤f f0_9999) }
{
    let share: [f32; 40] = from_fn(|k| densities[k] / fr);
    from_fn(|k| cut(share[k]))
}

// 1 over the root of what each leaves of 1, which is no NaN.
pub fn integrands(ysq: [f32; 40]) -> [f32; 40]
    requires { (k : ℕ) → k < 40 → T (at ysq k ≤f f0_9999) }
    ensures { result ≡ map integrand_of ysq }
{
    let rest: [f32; 40] = from_fn(|k| 1.0 - ysq[k]);
    let root = crate::roots::roots(rest);
    from_fn(|k| 1.0 / root[k])
}
