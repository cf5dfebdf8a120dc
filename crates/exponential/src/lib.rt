// e to an f32 by whole numbers, from its bit pattern to a bit pattern with no float operation: a power of two, a table of twelve entries and five terms of the series.
#![tactic(auto)]

ghost use Rattle.std.specs.Prelude.{◌≡◌, ◌+◌, ◌-◌, ◌*◌, ◌/◌, ◌%◌, ◌^◌, ◌<◌, ◌≤◌, ltb, get_or};
ghost use Rattle.fixed.specs.Fixed.{pick};
ghost use Rattle.exponential.specs.Tables.{ln2, sixteenths};
ghost use Rattle.exponential.specs.Exp.{rise_of, power_of, rounded_to24, lowered, grown, shrunk, exp_bits, exp_of};

use fixed::scaled;
use scalar::{bits, number};

// ln 2 in units of 2^-56
pub const LN2: u64 = 49946518145322873;

// e^(j / 16) in units of 2^-62
static SIXTEENTHS: [u64; 12] = [
    4611686018427387904,
    4909114212884919797,
    5225724877810906087,
    5562755176258917557,
    5921522061444258205,
    6303427422767273197,
    6709963563726645640,
    7142719033127747440,
    7603384832371617573,
    8093761023079684368,
    8615763760873668978,
    9171432782795317876,
];

#[tactic(auto, unfolding(crate::specs::Tables::sixteenths))]
fn sixteenth(j: u64) -> u64
    requires { j < 12 }
    ensures { result ≡ get_or sixteenths j 0 }
{
    SIXTEENTHS[j as usize]
}

// e^t - 1 for t = u / 2^36 below 1/16, in units of 2^-36
fn rise(u: u64) -> u64
    requires { u < 2 ^ 32 }
    ensures { result ≡ rise_of u }
{
    let t2 = u * u / 0x20_0000_0000;
    let t3 = t2 * u / 206158430208;
    let t4 = t3 * u / 0x40_0000_0000;
    let t5 = t4 * u / 343597383680;
    u + t2 + t3 + t4 + t5
}

// e^(r / 2^56) in units of 2^-62, for r up to ln 2
fn power(r: u64) -> u64
    requires { r ≤ ln2 }
    ensures { result ≡ power_of r }
{
    // the sixteenths of r, and 32 bits of what is left
    let f = sixteenth(r / 0x10_0000_0000_0000);
    let p = rise(r % 0x10_0000_0000_0000 / 0x10_0000);
    f + f / 0x1_0000_0000 * p / 16
}

// What depends on the sign s of x alone stands in small functions of its own, which compile to no branch. Stays: s is the first bit
// of x's pattern as a number, since `packed` moves a limit by a thousand times it.

// r, or what it lacks to ln 2
fn folded(s: u32, r: u64) -> u64
    requires { r < ln2 }
    ensures { result ≡ pick (ltb s 1) r (ln2 - r) }
{
    if s < 1 {
        return r;
    }
    LN2 - r
}

// the exponent's field, less one
fn field(s: u32, e: u32) -> u32
    requires { e + s * 1000 ≤ 1125 }
    ensures { result ≡ pick (ltb s 1) (126 + e) (125 - e) }
{
    if s < 1 {
        return 126 + e;
    }
    125 - e
}

// the one of two numbers that stands for x, or for -x
fn either(s: u32, plus: u32, minus: u32) -> u32
    ensures { result ≡ pick (ltb s 1) plus minus }
{
    if s < 1 {
        return plus;
    }
    minus
}

// the pattern of h * 2^(e - 62), or of h * 2^-(e + 63)
// Stays: a shift that rounds is one expression, written out here twice and once in `fixed`; a function of it would take the number
// of places, ask that they are below 64, and be cast as these are.
fn packed(s: u32, e: u64, h: u64) -> u32
    requires { (s < 2) × (e ≤ 127 + s * 23) }
    ensures { result ≡ pick (ltb s 1) ((126 + e) * 2 ^ 23 + rounded_to24 h) (lowered e h) }
{
    if 1125 < e + (s as u64) * 1000 {
        return (((h >> (e - 87)) + 1) / 2) as u32;
    }
    field(s, e as u32) * 0x80_0000 + (((h >> 38) + 1) / 2) as u32
}

// the pattern of e^x, or of e^-x, x in units of 2^-56
fn signed(s: u32, x: u64) -> u32
    requires { (s < 2) × (x + (1 - s) * (0x1e_8de9 * 2 ^ 39) ≤ 104 * 2 ^ 56) }
    ensures { result ≡ pick (ltb s 1) (grown x) (shrunk x) }
{
    packed(s, x / LN2, power(folded(s, x % LN2)))
}

// from the pattern of x to that of e^x
fn exp_bits(b: u32) -> u32
    ensures { result ≡ exp_bits b }
{
    let a = b % 0x8000_0000;
    if 0x7f800000 < a {
        return 0x7fc00000;
    }
    if a < 0x33000000 {
        return 0x3f800000;
    }
    let s = b / 0x8000_0000;
    // from the first pattern on e^x is infinite, and from the second e^-x is 0
    if either(s, 0x42b17218, 0x42d00000) <= a {
        return either(s, 0x7f800000, 0);
    }
    signed(s, scaled(a, 94))
}

// Stays: as `ln`, `sin` and the others, each one line; one function for them would be handed `exp_bits`, and a call of it as long.
pub fn exp(x: f32) -> f32
    ensures { result ≡ exp_of x }
{
    number(exp_bits(bits(x)))
}
