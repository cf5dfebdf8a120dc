// The arc tangent: a table of angles with their tangents, and v - v^3 / 3 for the tangent v of what is left.
// Stays: what is asked of a pattern a (0x3980_0000 ≤ a), since the functions differ in its other end.
ghost use Rattle.std.specs.Prelude.{◌≡◌, ◌+◌, ◌-◌, ◌*◌, ◌/◌, ◌%◌, ◌^◌, ◌<◌, ◌≤◌};
ghost use Rattle.arcs.specs.Atan.{cube_of, angle_of, low_angle, mid_angle, high_angle, atan_mag, atan_bits};

use arc_entries::{HALF_PI, tangent_angle};
use fixed::{high_product, pack, power, scaled};

// v^3 / 3 for v = q * 2^-56
fn cube(q: u64) -> u64
    requires { q < 2 ^ 50 }
    ensures { result ≡ cube_of q }
{
    let w = q * 256;
    high_product(q, high_product(w, w)) / 3
}

// n / d in units of 2^-56, by two divisions
// Stays: n and d are a quotient's two numbers at one call each, and no pair that is kept.
fn quotient(n: u64, d: u64) -> u64
    requires { (n < 2 ^ 31) × (2 ^ 25 ≤ d) × (d ≤ 2 ^ 38) }
    ensures { result ≡ n * 2 ^ 56 / d }
{
    let m = n * 0x4000_0000;
    (m / d) * 0x400_0000 + (m % d) * 0x400_0000 / d
}

// the angle a, and the small one whose tangent is q * 2^-56
fn angle_sum(a: u64, q: u64) -> u64
    requires { (a ≤ 2 ^ 57) × (q < 2 ^ 50) }
    ensures { result ≡ angle_of a q }
{
    a + (q - cube(q))
}

// x from 2^-12 to 2^-7: no table
fn low_angle(a: u32) -> u64
    requires { (0x3980_0000 ≤ a) × (a < 0x3c00_0000) }
    ensures { result ≡ low_angle a }
{
    angle_sum(0, scaled(a, 94))
}

// x from 2^-7 to 1
fn mid_angle(a: u32) -> u64
    requires { (0x3c00_0000 ≤ a) × (a < 0x3f80_0000) }
    ensures { result ≡ mid_angle a }
{
    let x = scaled(a, 120);
    let i = (128 * x - 0x10_0000) / 0x4000_0000;
    let q = quotient(128 * x - i * 0x4000_0000, 0x20_0000_0000 + i * x);
    angle_sum(tangent_angle(i as usize), q)
}

// x from 1 to 2^26
fn high_angle(a: u32) -> u64
    requires { (0x3f80_0000 ≤ a) × (a < 0x4c80_0000) }
    ensures { result ≡ high_angle a }
{
    let n = 4 * ((0x80_0000 + a % 0x80_0000) as u64);
    let e = power(152 - a / 0x80_0000);
    let j = (128 * e + 0x1_0000) / n + 1;
    let q = quotient(n * j - 128 * e, e * j + 128 * n);
    angle_sum(HALF_PI - tangent_angle(j as usize), q)
}

fn atan_mag(a: u32) -> u64
    requires { (0x3980_0000 ≤ a) × (a < 0x4c80_0000) }
    ensures { result ≡ atan_mag a }
{
    if a < 0x3c000000 {
        return low_angle(a);
    }
    if a < 0x3f800000 {
        return mid_angle(a);
    }
    high_angle(a)
}

// from the bit pattern of x to that of its arc tangent
pub fn atan_bits(b: u32) -> u32
    ensures { result ≡ atan_bits b }
{
    let a = b % 0x8000_0000;
    let t = b / 0x8000_0000 * 0x8000_0000;
    if a < 0x39800000 {
        return b;
    }
    if a < 0x4c800000 {
        return t + pack(atan_mag(a));
    }
    if a <= 0x7f800000 {
        return t + 0x3fc90fdb;
    }
    b
}
