// The arc sine: the cosine by a whole root, and then the angle by the sine of its difference from one of the table's.
// Stays: what is asked of a sine n (n < 2^32), of what is rooted (0 < n) and of a pattern a (0x3980_0000 ≤ a), in whose other end
// the functions differ. Each works with its number at the full width, so a narrower type would be widened in every line.
ghost use Rattle.std.specs.Prelude.{◌≡◌, ◌+◌, ◌-◌, ◌*◌, ◌^◌, ◌<◌, ◌≤◌};
ghost use Rattle.scalar.specs.Root.{root};
ghost use Rattle.arc_tables.specs.Tables.{cosine_of, cosine_at};
ghost use Rattle.arcs.specs.Asin.{sixth_of, arc_of, gentle_arc, steep_arc, mid_arc, low_arc, asin_mag, asin_bits};

use arc_entries::{HALF_PI, node_angle, node_cosine};
use fixed::{pack, power, scaled};

// s^3 / 6, for the sine s * 2^-56
fn sixth(s: u64) -> u64
    requires { s < 2 ^ 50 }
    ensures { result ≡ sixth_of s }
{
    let t = s / 0x100_0000;
    t * t / 0x10_0000 * t / 0x10_0000 / 6
}

// the angle a, and the small one whose sine is s * 2^-56
fn arc_sum(a: u64, s: u64) -> u64
    requires { (a ≤ 2 ^ 57) × (s < 2 ^ 50) }
    ensures { result ≡ arc_of a s }
{
    a + (s + sixth(s))
}

// a number not below n's root: the mean of g and n / g
fn mean(n: u64, g: u64) -> u64
    requires { (0 < g) × (g ≤ 2 ^ 32) × (n < g * (2 ^ 33 - g)) }
    ensures { (n < (result + 1) * (result + 1)) × (result < 2 ^ 32) }
{
    (g + n / g) / 2
}

// c times u / 2^k
fn part(u: u64, c: u64, k: u32) -> u64
    requires { (u < 2 ^ k) × (k ≤ 32) × (c < 2 ^ 32) }
    ensures { result ≤ c }
{
    u * c >> k
}

// Near n's root: the mean after a polynomial in units of 2^k, which is off by at most one part in 700.
// Of this and of `chord` no proof asks more than what they ensure: `whole_root` corrects them.
fn guess(n: u64) -> u64
    requires { 0 < n }
    ensures { (n < (result + 1) * (result + 1)) × (result < 2 ^ 32) }
{
    let k = (65 - u64::leading_zeros(n)) / 2;
    let p = power(k);
    let u = p - 1 - (n >> k);
    let a = part(u, part(u, 1117640239, k), k);
    mean(n, p - part(2230943838 + a, u, 32))
}

// the whole part of n's root, from a number not below it down by means
// Stays: a loop that counts nothing and ends where the square is not above n; the library's `isqrt` halves a range thirty-two times.
fn whole_root(n: u64, start: u64) -> u64
    requires { (n < (start + 1) * (start + 1)) × (start < 2 ^ 32) }
    ensures { result ≡ root n }
{
    let mut r = start;
    while n < r * r {
        r = (r + n / r) / 2;
    }
    r
}

// 1 - x^2 in units of 2^-64, for the sine x = n * 2^-32
fn rest_of_square(n: u64) -> u64
    requires { n < 2 ^ 32 }
    ensures { (result ≡ 2 ^ 64 - 1 - n * n) × (0 < result) }
{
    0xffff_ffff_ffff_ffff - n * n
}

// the cosine to the sine n
// Stays: beside the same from a number near it, two lines each, which differ in where the walk starts.
fn cosine(n: u64) -> u64
    requires { n < 2 ^ 32 }
    ensures { result ≡ cosine_of n }
{
    let m = rest_of_square(n);
    whole_root(m, guess(m))
}

// the same from a number g near it
fn near_cosine(n: u64, g: u64) -> u64
    requires { (n < 2 ^ 32) × (0 < g) × (g ≤ 2 ^ 32) × (2 ^ 32 ≤ g + n) }
    ensures { result ≡ cosine_of n }
{
    let m = rest_of_square(n);
    whole_root(m, mean(m, g))
}

// The cosine to the sine i / 256 + e * 2^-32, by the chord from the table's i, whose cosine is x, to the next:
// off by at most one part in 100,000
fn chord(i: usize, x: u64, e: u64) -> u64
    requires { (1 ≤ i) × (i ≤ 181) × (x ≡ cosine_at i) × (2 ^ 16 ≤ e) × (e ≤ 2 ^ 24 + 2 ^ 16) }
    ensures { (0 < result) × (result ≤ 2 ^ 32) × (2 ^ 32 ≤ result + (i * 2 ^ 24 + e)) }
{
    x - (x - node_cosine(i + 1)) * e / 0x100_0000
}

// the angle with the sine n up to the root of 1/2
fn gentle_arc(n: u64) -> u64
    requires { (2 ^ 25 ≤ n) × (n ≤ 3037000499) }
    ensures { result ≡ gentle_arc n (cosine_of n) }
{
    let i = (n - 0x1_0000) / 0x100_0000;
    let y = i * 0x100_0000;
    let x = node_cosine(i as usize);
    let c = near_cosine(n, chord(i as usize, x, n - y));
    arc_sum(node_angle(i as usize), (x * n - y * c) / 256)
}

// the angle with the sine n above it
fn steep_arc(n: u64) -> u64
    requires { (3037000500 ≤ n) × (n < 2 ^ 32) }
    ensures { result ≡ steep_arc n (cosine_of n) }
{
    let c = cosine(n);
    let j = (c + 0x1_0000) / 0x100_0000 + 1;
    let y = node_cosine(j as usize);
    arc_sum(
        HALF_PI - node_angle(j as usize),
        (j * 0x100_0000 * n - y * c) / 256,
    )
}

// x from 2^-7 on and below 1
fn mid_arc(n: u64) -> u64
    requires { (2 ^ 25 ≤ n) × (n < 2 ^ 32) }
    ensures { result ≡ mid_arc n }
{
    if n <= 3037000499 {
        return gentle_arc(n);
    }
    steep_arc(n)
}

// x from 2^-12 to 2^-7: no table
fn low_arc(a: u32) -> u64
    requires { (0x3980_0000 ≤ a) × (a < 0x3c00_0000) }
    ensures { result ≡ low_arc a }
{
    arc_sum(0, scaled(a, 94))
}

fn asin_mag(a: u32) -> u64
    requires { (0x3980_0000 ≤ a) × (a < 0x3f80_0000) }
    ensures { result ≡ asin_mag a }
{
    if a < 0x3c000000 {
        return low_arc(a);
    }
    mid_arc(scaled(a, 118))
}

// from the bit pattern of x to that of its arc sine
// Stays: beside the arc tangent's: where the ranges end and what is answered past them differ, and one function for both would be
// handed these and the rule.
pub fn asin_bits(b: u32) -> u32
    ensures { result ≡ asin_bits b }
{
    let a = b % 0x8000_0000;
    let t = b / 0x8000_0000 * 0x8000_0000;
    if a < 0x39800000 {
        return b;
    }
    if a < 0x3f800000 {
        return t + pack(asin_mag(a));
    }
    if a <= 0x3f800000 {
        return t + 0x3fc90fdb;
    }
    0x7fc00000
}
