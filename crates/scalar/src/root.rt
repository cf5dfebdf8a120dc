// The pattern of the root of a float that is above zero and finite. A guess is made with floats; what
// is answered is decided by whole numbers only.
ghost use Rattle.std.specs.Prelude.{◌≡◌, ◌+◌, ◌-◌, ◌*◌, ◌/◌, ◌%◌, ◌≤◌, ◌<◌, ◌^◌};
ghost use Rattle.std.specs.Int.Count.{count_leading_zeros};
ghost use Rattle.std.specs.Float.{binary32};
ghost use Rattle.std.specs.Float.Ieee.{of_bits};
ghost use Rattle.scalar.specs.Root.{root, sqrt_of};
ghost use Rattle.scalar.specs.RootPattern.{root_pattern};

// The digits of the root of the float from 1 to below 4 whose pattern is t above that of 1, as the machine takes it. No proof rests on
// that: `rounded_root` tests the guess, and corrects any.
pub fn near_root(t: u32) -> u32
    requires { t < 2 ^ 24 }
    ensures { result < 2 ^ 25 }
{
    let y = f32::from_bits(0x3f80_0000 + t).sqrt();
    0x80_0000 + f32::to_bits(y) % 0x80_0000
}

// The root of n, rounded, from any guess: mostly the guess itself. It is the r with n above r * r - r
// and not above r * r + r, since the square of r + 1/2 is no whole number.
// Stays: loops that count nothing, and mostly are not reached; a search of a range would have to say what is answered where nothing is found.
fn rounded_root(n: u64, guess: u64) -> u64
    requires { (0 < n) × (n < 2 ^ 48) × (guess < 2 ^ 25) }
    ensures { result ≡ (root (4 * n) + 1) / 2 }
{
    let square = guess * guess;
    if square < n + guess && n <= square + guess {
        return guess;
    }
    let mut r = guess;
    while n + r <= r * r {
        r -= 1;
    }
    while r * r + r < n {
        r += 1;
    }
    r
}

// The pattern of the root of m * 2^(h - 126) units, for an m of 24 digits: h and m's last 23 digits
// make up e.
fn root_pattern(e: u32) -> u32
    requires { e / 2 ^ 23 ≤ 400 }
    ensures { result ≡ root_pattern (2 ^ 23 + e % 2 ^ 23) (e / 2 ^ 23) }
{
    let m = 0x80_0000 + e % 0x80_0000;
    let scale = 0x80_0000 + e / 0x80_0000 % 2 * 0x80_0000;
    let n = m as u64 * scale as u64;
    let digits = rounded_root(n, u64::from(near_root(e % 0x100_0000)));
    e / 0x100_0000 * 0x80_0000 + digits as u32
}

// How many of the leading zeros are to be shifted out for 24 digits to be left.
fn spare_zeros(digits: u32) -> u32
    requires { (0 < digits) × (digits < 2 ^ 24) }
    ensures { (result ≡ count_leading_zeros 32 digits - 8) × (result ≤ 23) }
{
    u32::leading_zeros(digits) - 8
}

// The pattern of the root of the subnormal float with the pattern b: its significand is normalised,
// and the root's exponent comes from the zeros shifted out.
pub fn subnormal_root(b: u32) -> u32
    requires { (0 < b) × (b < 0x80_0000) }
    ensures { (of_bits binary32 result ≡ sqrt_of (of_bits binary32 b)) × (result < 0x7f80_0000) }
{
    let z = spare_zeros(b);
    root_pattern((b << z) % 0x80_0000 + (126 - z) * 0x80_0000)
}

// So for a normal one, whose leading digit is not in its pattern. It has no zeros to shift out.
pub fn normal_root(b: u32) -> u32
    requires { (0x80_0000 ≤ b) × (b < 0x7f80_0000) }
    ensures { (of_bits binary32 result ≡ sqrt_of (of_bits binary32 b)) × (result < 0x7f80_0000) }
{
    let field = b >> 23;
    let digits = 0x80_0000 + b % 0x80_0000;
    let z = spare_zeros(digits);
    root_pattern(field * 0x80_0000 + (digits << z) % 0x80_0000 + (125 - z) * 0x80_0000)
}
