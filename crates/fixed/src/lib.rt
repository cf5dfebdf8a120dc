// What the elementary functions share: products, shifts and patterns of fixed-point numbers in a u64.
#![tactic(auto)]

ghost use Rattle.std.specs.Prelude.{◌≡◌, ◌+◌, ◌*◌, ◌/◌, ◌^◌, ◌<◌, ◌≤◌};
ghost use Rattle.fixed.specs.Fixed.{scaled_of, mant, pattern};

// The upper 64 bits of a product of 128 bits.
pub fn high_product(u: u64, v: u64) -> u64
    ensures { result ≡ u * v / 2 ^ 64 }
{
    ((u128::from(u) * u128::from(v)) >> 64) as u64
}

// 2^k
pub fn power(k: u32) -> u64
    requires { k < 64 }
    ensures { result ≡ 2 ^ k }
{
    1u64 << k
}

// the size of the float with the pattern a, in units of 2^(k - 150)
pub fn scaled(a: u32, k: u32) -> u64
    requires { (k ≤ a / 2 ^ 23) × (a / 2 ^ 23 ≤ k + 39) }
    ensures { result ≡ scaled_of a k }
{
    let m = (0x80_0000 + a % 0x80_0000) as u64;
    let e = a / 0x80_0000 - k;
    m << e
}

// s to 24 bits
fn significand(s: u64) -> u32
    requires { (2 ^ 30 ≤ s) × (s < 2 ^ 64) }
    ensures { result ≡ mant s }
{
    let l = u64::leading_zeros(s);
    ((((s << l) >> 39) + 1) / 2) as u32
}

// s * 2^-56 as the bit pattern of an f32
pub fn pack(s: u64) -> u32
    requires { (2 ^ 30 ≤ s) × (s < 2 ^ 64) }
    ensures { result ≡ pattern s }
{
    (133 - u64::leading_zeros(s)) * 0x80_0000 + significand(s)
}
