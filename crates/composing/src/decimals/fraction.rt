// The f32 nearest to n / 10^places.
ghost use Rattle.std.specs.Prelude.{◌≡◌, Bool, cond, ◌+◌, ◌*◌, ◌^◌, ◌≤◌, ◌<◌};
ghost use Rattle.std.specs.Float.{binary32};
ghost use Rattle.std.specs.Float.Ieee.{round, to_bits};
ghost use Rattle.std.specs.Float.Ieee.Nearest.{closest as closest_of};

// The exponent's field and a / c, rounded to 24 digits: a carry out of those is the exponent's.
fn packed(field: u32, a: u64, c: u64) -> u32
    requires { (field < 252) × (0 < c) × (c < 2 ^ 62) × (a < 2 ^ 24 * c) }
    ensures { result ≡ field * 2 ^ 23 + closest_of a c }
{
    field * 0x80_0000 + figures::nearest(a, c) as u32
}

// The pattern of the f32 nearest to n / d, without its sign. n is moved up until the quotient by 2^8 d has 24 digits or 25
// before the point; where it has 25, 2^9 d is taken.
fn magnitude(n: u64, d: u64) -> u32
    requires { (0 < n) × (n < 2 ^ 32) × (0 < d) × (d < 2 ^ 32) }
    ensures { (result < 2 ^ 31) × ((s : Bool) → to_bits binary32 (round binary32 s n d) ≡ cond s (2 ^ 31) 0 + result) }
{
    let z = u64::leading_zeros(n);
    let y = u64::leading_zeros(d);
    let a = n * fixed::power(32 + z - y);
    let c = d * 256;
    if a / 0x100_0000 < c {
        return packed(125 + y - z, a, c);
    }
    packed(126 + y - z, a, c * 2)
}

fn sign(minus: bool) -> u32
    ensures { result ≡ cond minus (2 ^ 31) 0 }
{
    u32::from(minus) * 0x8000_0000
}

// The bits of the f32 nearest to n / 10^places, a half to the even one; a zero has its sign too.
// Stays: `places` up to 9 is asked of one caller, which has counted them; a type for such a number would ask the same where it is
// made, and be no plainer.
pub fn nearest_bits(minus: bool, n: u32, places: u32) -> u32
    requires { places ≤ 9 }
    ensures { result ≡ to_bits binary32 (round binary32 minus n (10 ^ places)) }
{
    let s = sign(minus);
    if n == 0 {
        return s;
    }
    s + magnitude(u64::from(n), 10u64.pow(places))
}
