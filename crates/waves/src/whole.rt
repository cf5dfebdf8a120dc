// Sine and cosine: the angle folded onto 0 to half pi, and eight terms of the sine's series there in units of 2^-32.
ghost use Rattle.std.specs.Prelude.{◌≡◌, ◌+◌, ◌-◌, ◌*◌, ◌/◌, ◌%◌, ◌^◌, ◌<◌, ◌≤◌, leb};
ghost use Rattle.std.specs.Int.Count.{count_leading_zeros};
ghost use Rattle.series.specs.Series.{sine, cosine};
ghost use Rattle.waves.specs.SinCos.{times, added, taken, ratio_of, sine_at, sin_fold, cos_fold, sin_sign, cos_sign, mag_of, wave_bits};
ghost use Rattle.fixed.specs.Fixed.{pick};

use fixed::{pack, scaled};

// the product of two fractions in units of 2^-32
fn product(u: u32, v: u32) -> u32
    ensures { result ≡ times u v }
{
    (u as u64 * v as u64 / 0x1_0000_0000) as u32
}

// four terms by Horner's rule
fn horner(w: u32, a: u64, b: u32, c: u32, d: u32) -> u64
    requires { (a ≤ 2 ^ 32) × (b + c + d < 2 ^ 32) }
    ensures { result ≡ a + times w (b + times w (c + times w d)) }
{
    a + product(w, b + product(w, c + product(w, d))) as u64
}

// the terms that are added, with w for (x / 2)^4
fn plus(w: u32) -> u64
    ensures { result ≡ added w }
{
    horner(w, 0x1_0000_0000, 572662306, 3029959, 2825)
}

// the terms that are taken off, without a factor (x / 2)^2
fn minus(w: u32) -> u32
    ensures { result ≡ taken w }
{
    horner(w, 2863311530, 54539267, 110180, 53) as u32
}

// sin x / x in units of 2^-32, for x = r / 2^61 below 2
fn ratio(r: u64) -> u64
    requires { r < 2 ^ 62 }
    ensures { result ≡ ratio_of r }
{
    let q = (r / 0x4000_0000) as u32;
    let y = product(q, q);
    let w = product(y, y);
    plus(w) - product(y, minus(w)) as u64
}

// the first 32 digits of r
fn digits(r: u64) -> u64
    requires { 0 < r }
    ensures { result ≡ r * 2 ^ count_leading_zeros 64 r / 2 ^ 32 }
{
    (r << u64::leading_zeros(r)) >> 32
}

// the bit pattern of the sine at a folded angle, with the sign given
fn sine_at(sign: u32, r: u64) -> u32
    requires { (sign ≤ 1) × ((0 < r) × (r < 2 ^ 62)) }
    ensures { result ≡ sign * 2 ^ 31 + sine_at r }
{
    let size = pack(digits(r) * ratio(r)) - (u64::leading_zeros(r) + 5) * 0x80_0000;
    sign * 0x8000_0000 + size
}

// the angle onto which x / 2^61, up to 4, is folded for its sine
fn sin_fold(x: u64) -> u64
    ensures { result ≡ sin_fold x }
{
    if x <= 3622009729038561421 {
        return x;
    }
    x.abs_diff(7244019458077122842)
}

// and for its cosine
fn cos_fold(x: u64) -> u64
    requires { x ≤ 2 ^ 63 }
    ensures { result ≡ cos_fold x }
{
    if x <= 7244019458077122842 {
        return x.abs_diff(3622009729038561421);
    }
    10866029187115684264 - x
}

// the sign of the sine, 1 for minus, where t is that of x
// Stays: a sign is the first bit of a pattern, taken off x's and put before the answer's, as a number at both ends.
fn sin_sign(t: u32, x: u64) -> u32
    requires { t ≤ 1 }
    ensures { result ≡ sin_sign t x }
{
    let other = 1 - t;
    if x <= 7244019458077122842 {
        return t;
    }
    other
}

fn cos_sign(x: u64) -> u32
    ensures { result ≡ cos_sign x }
{
    u32::from(x > 3622009729038561421)
}

// |x| in units of 2^-61, for |x| up to 4
// Stays: what is asked of a pattern a (0x3980_0000 ≤ a), once here; crate `arcs` asks it with other upper ends.
fn magnitude(a: u32) -> u64
    requires { (0x3980_0000 ≤ a) × (a ≤ 0x4080_0000) }
    ensures { result ≡ mag_of a }
{
    scaled(a, 115) * 0x400_0000
}

// from the bit pattern of x to that of its sine
// Stays: beside the cosine. The two share all but the answer at a small angle, the fold and the sign, and each of these is a formula
// of its own: one function for both would ask three times which of the two it is.
pub fn sin_bits(b: u32) -> u32
    ensures { result ≡ wave_bits sine b }
{
    let a = b % 0x8000_0000;
    if a < 0x39800000 {
        return b;
    }
    if 0x40800000 < a {
        return 0x7fc00000;
    }
    let x = magnitude(a);
    sine_at(sin_sign(b / 0x8000_0000, x), sin_fold(x))
}

// the same for the cosine
pub fn cos_bits(b: u32) -> u32
    ensures { result ≡ wave_bits cosine b }
{
    let a = b % 0x8000_0000;
    if a < 0x39800000 {
        return 0x3f800000;
    }
    if 0x40800000 < a {
        return 0x7fc00000;
    }
    let x = magnitude(a);
    sine_at(cos_sign(x), cos_fold(x))
}
