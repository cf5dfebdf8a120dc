// The arithmetic that everything else rests on: bit patterns, the cut to an i32, minimum, maximum,
// abs and the square root. Each is total: it answers at NaN, at both infinities and at both zeros.
#![tactic(auto)]

mod root;

ghost use Rattle.std.specs.Prelude.{◌≡◌, ◌-◌, ◌≤◌, min as least};
ghost use Rattle.std.specs.Float.{binary32};
ghost use Rattle.std.specs.Float.Ieee.{of_bits, to_bits};
ghost use Rattle.scalar.specs.Scalar.{min_of, max_of, abs_of, trunc_of};
ghost use Rattle.scalar.specs.Root.{sqrt_of};

pub use root::near_root;
use std::num::{f32_from_bits_with_nan, f32_to_bits_with_nan};

// The float with the pattern b; each of NaN's patterns gives NaN.
pub fn number(b: u32) -> f32
    ensures { result ≡ of_bits binary32 b }
{
    f32_from_bits_with_nan(b)
}

// The pattern of x; 0x7fc00000 at NaN.
pub fn bits(x: f32) -> u32
    ensures { result ≡ to_bits binary32 x }
{
    f32_to_bits_with_nan(x)
}

// The smaller one. A NaN is dropped, and of two equal ones, -0 and +0 too, the first is the answer.
// Stays: not the library's own, which promise either of two equal ones; and beside the larger one, with a and b as the Rust has
// them, since one function of both would be handed its comparison as a closure, and be longer than these two.
#[tactic(auto, unfolding(crate::specs::Scalar::min_of, crate::specs::Scalar::or_second))]
pub fn min(a: f32, b: f32) -> f32
    ensures { result ≡ min_of a b }
{
    if a.is_nan() || b < a { b } else { a }
}

// The larger one, by the same rules.
#[tactic(auto, unfolding(crate::specs::Scalar::max_of, crate::specs::Scalar::or_second))]
pub fn max(a: f32, b: f32) -> f32
    ensures { result ≡ max_of a b }
{
    if a.is_nan() || b > a { b } else { a }
}

// x without its sign.
pub fn abs(x: f32) -> f32
    ensures { result ≡ abs_of x }
{
    x.abs()
}

// How far 32 digits are shifted down for the whole part to be left, by the exponent's field: out of
// a word of 64 at most, where the float is below 1 and none is left.
fn places(field: u32) -> u32
    requires { field ≤ 158 }
    ensures { result ≡ least (158 - field) 63 }
{
    (158 - field).min(63)
}

// The Rust's `x as i32`, from the pattern of x: its leading digit and the 23 that follow, at the top
// of 32, are shifted down until only the whole part is left.
// Stays: by hand, since the library's cast, which saturates too, takes half as long again (4.4 ns where this takes 2.8).
pub fn trunc(x: f32) -> i32
    ensures { result ≡ trunc_of x }
{
    if x.is_nan() {
        return 0;
    }
    let b = f32::to_bits(x);
    let size = b % 0x8000_0000;
    // from 2^31 on, the infinities too
    if size >= 0x4f00_0000 {
        if b < 0x8000_0000 {
            return 0x7fff_ffff;
        }
        return -0x8000_0000;
    }
    let digits = 0x8000_0000 + b % 0x80_0000 * 0x100;
    let whole = digits as u64 >> places(size / 0x80_0000);
    if b < 0x8000_0000 {
        return whole as i32;
    }
    -(whole as i32)
}

// The square root, correctly rounded: NaN of NaN and below zero, either zero of itself.
// Stays: not the library's own, which is the machine's instruction: the paper has the root's exponent from the leading zeros, and its
// rounding is proved here of whole numbers. The instruction guesses, and what it says is tested.
pub fn sqrt(x: f32) -> f32
    ensures { result ≡ sqrt_of x }
{
    if x.is_nan() {
        return x;
    }
    let b = f32::to_bits(x);
    if b < 0x80_0000 {
        if b == 0 {
            return x;
        }
        return f32::from_bits(root::subnormal_root(b));
    }
    if b < 0x7f80_0000 {
        return f32::from_bits(root::normal_root(b));
    }
    if b == 0x7f80_0000 {
        return x;
    }
    if b == 0x8000_0000 {
        return x;
    }
    // below zero, -infinity too
    0.0 / 0.0
}
