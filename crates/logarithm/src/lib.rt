// The natural logarithm of an f32 by whole numbers: the significand is c * (1 + s) / (1 - s) for the nearest eighth c,
// whose logarithm stands in a table, and ln ((1 + s) / (1 - s)) is 2 (s + s^3 / 3 + s^5 / 5 + ..).
#![tactic(auto)]

ghost use Rattle.std.specs.Prelude.{◌≡◌, ◌+◌, ◌-◌, ◌*◌, ◌/◌, ◌%◌, ◌^◌, ◌<◌, ◌≤◌, leb, get_or};
ghost use Rattle.fixed.specs.Fixed.{pick};
ghost use Rattle.logarithm.specs.Tables.{eighths};
ghost use Rattle.logarithm.specs.Ln.{excess_of, twice_of, rest_of, above, below, ln_bits, ln_of};

use exponential::LN2;
use fixed::pack;
use scalar::{bits, number};

// ln (1 + i / 8) in units of 2^-56
static EIGHTHS: [u64; 9] = [
    0,
    8487162167882469,
    16079187432780867,
    22947009676802825,
    29216840156602671,
    34984525091838898,
    40324567264265857,
    45296027589383539,
    49946518145322873,
];

// Stays: a function for each table, as `exponential::sixteenth` and those of `arc_entries`, which tells a caller the definition's
// entry; a shared one would have each caller's proof open its whole table.
#[tactic(auto, unfolding(crate::specs::Tables::eighths))]
fn eighth(i: u64) -> u64
    requires { i < 9 }
    ensures { result ≡ get_or eighths i 0 }
{
    EIGHTHS[i as usize]
}

// s^2 / 3 + s^4 / 5 in units of 2^-34, as s is
fn excess(s: u64) -> u64
    requires { s ≤ 2 ^ 29 }
    ensures { result ≡ excess_of s }
{
    let u = s * s / 0x4_0000_0000;
    u / 3 + u * u / 0x4_0000_0000 / 5
}

// ln ((d + n) / (d - n)) in units of 2^-56. The quotient n / d has as many places as fit: it is in units of 2^-l.
// Stays: n and d are the two numbers of a quotient, and no pair that is kept.
fn twice(n: u64, d: u64) -> u64
    requires { (n ≤ 2 ^ 19) × (2 ^ 24 ≤ d) }
    ensures { result ≡ twice_of n d }
{
    if n < 1 {
        return 0;
    }
    let l = u64::leading_zeros(n);
    let q = (n << l) / d;
    let g = excess(q >> (l - 34));
    ((q + q * g / 0x4_0000_0000) * 0x10_0000) >> (l - 37)
}

// ln (m / 2^23) in units of 2^-56
// Stays: that m has 24 digits is asked of three functions of this file, each of which reads it as a number; a type for it would
// be made at three calls and opened at as many.
fn rest(m: u64) -> u64
    requires { (2 ^ 23 ≤ m) × (m < 2 ^ 24) }
    ensures { result ≡ rest_of m }
{
    let i = (m - 7864320) / 0x10_0000;
    let c = (8 + i) * 0x10_0000;
    let y = eighth(i);
    let a = twice(m.abs_diff(c), m + c);
    if c <= m {
        return y + a;
    }
    y - a
}

// the pattern of ln (m / 2^23 * 2^e), which is above 0
fn above_bits(m: u64, e: u64) -> u32
    requires { (2 ^ 23 ≤ m) × (m < 2 ^ 24) × (e ≤ 127) × (2 ^ 23 < m + e) }
    ensures { result ≡ above m e }
{
    let y = rest(m);
    pack(e * LN2 + y)
}

// the pattern of ln (m / 2^23 * 2^-e), which is below 0
fn below_bits(m: u64, e: u64) -> u32
    requires { (2 ^ 23 ≤ m) × (m < 2 ^ 24) × (1 ≤ e) × (e ≤ 149) }
    ensures { result ≡ below m e }
{
    let y = rest(m);
    0x8000_0000 + pack(e * LN2 - y)
}

// from the pattern of x to that of its logarithm
fn ln_bits(b: u32) -> u32
    ensures { result ≡ ln_bits b }
{
    if b % 0x8000_0000 == 0 {
        return 0xff800000;
    }
    if 0x7f800000 < b {
        return 0x7fc00000;
    }
    if b == 0x7f800000 {
        return 0x7f800000;
    }
    if 0x3f800000 <= b {
        if b == 0x3f800000 {
            return 0;
        }
        return above_bits(
            (0x80_0000 + b % 0x80_0000) as u64,
            (b / 0x80_0000 - 127) as u64,
        );
    }
    if 0x80_0000 <= b {
        return below_bits(
            (0x80_0000 + b % 0x80_0000) as u64,
            (127 - b / 0x80_0000) as u64,
        );
    }
    let z = u32::leading_zeros(b);
    below_bits((b << (z - 8)) as u64, (118 + z) as u64)
}

// Stays: as `exp`, `sin` and the others, each one line; one function for them would be handed `ln_bits`, and a call of it as long.
pub fn ln(x: f32) -> f32
    ensures { result ≡ ln_of x }
{
    number(ln_bits(bits(x)))
}
