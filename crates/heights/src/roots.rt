// Forty square roots at a time. Each is guessed with floats and tested by whole numbers, with no branch
// and no call, so that the compiler makes vector instructions of them. Where one of the forty guesses is
// not proved right by its test, all are worked out one by one.
// Stays: lists of forty side by side (patterns b and guesses g), since vector instructions take one kind of number from a list,
// and a list of records would have to be taken apart first.
ghost use Rattle.std.specs.Prelude.{◌≡◌, map, ℕ, ◌%◌, ◌^◌, ◌≤◌, ◌<◌};
ghost use Rattle.std.specs.Float.{binary32, NotNan};
ghost use Rattle.std.specs.Float.Ieee.{of_bits};
ghost use Rattle.scalar.specs.F32.{at};
ghost use Rattle.scalar.specs.Root.{sqrt_of};
ghost use Rattle.heights.specs.Guess.{Normal, Right, AllRight};

use std::array::from_fn;

// The pattern of x.
// Stays: not `scalar::bits`, which tests for NaN, and of a test of floats the compiler makes no vector instructions here.
fn pattern(x: f32) -> u32
    requires { NotNan x }
    ensures { of_bits binary32 result ≡ x }
{
    f32::to_bits(x)
}

// Of the number from 1 to below 4 with the digits of b's, which differ by a power of 4: the last 24
// digits of its pattern, the exponent's last one among them.
fn folded(b: u32) -> u32
    ensures { result < 2 ^ 24 }
{
    (b % 0x100_0000 + 0x80_0000) % 0x100_0000
}

// Whether b is the pattern of a float that is above zero, finite and not subnormal: 1, else 0.
// Stays: numbers, here and in `right`: eighty tests are counted with no branch, and `roots` compares the count once.
fn normal(b: u32) -> u64
    ensures { (result ≤ 1) × ((result ≡ 1) → Normal b) }
{
    u64::from(0x80_0000 <= b && b < 0x7f80_0000)
}

// Whether the digits guessed are those of the root: 1, else 0. The square less r is below what is
// rooted, and the square and r are not.
// Stays: what is rooted is worked out as by `root_pattern` of scalar, which takes the exponent moved by an odd number, so with the
// other parity: two lines, of which one differs.
fn right(b: u32, g: u32) -> u64
    ensures { (result ≤ 1) × (result ≡ 1 → Right b (g % 2 ^ 25)) }
{
    let digits = 0x80_0000 + b % 0x80_0000;
    let scale = 0x80_0000 + (b / 0x80_0000 + 1) % 2 * 0x80_0000;
    let n = digits as u64 * scale as u64;
    let r = (g % 0x200_0000) as u64;
    let w = r * r + 0x4000_0000_0000_0000 - n;
    (w + r) / 0x4000_0000_0000_0000 - (w - r) / 0x4000_0000_0000_0000
}

// The root with these digits.
fn packed(b: u32, g: u32) -> f32
    requires { Normal b × Right b (g % 2 ^ 25) }
    ensures { result ≡ sqrt_of (of_bits binary32 b) }
{
    f32::from_bits((b + 0x3e80_0000) / 0x100_0000 * 0x80_0000 + g % 0x200_0000)
}

// How many tests are passed, of two for each.
fn passed(b: &[u32; 40], g: &[u32; 40]) -> u64
    ensures { result ≡ 80 → AllRight b.now g.now 40 }
{
    let mut n = 0u64;
    for (b, g) in b.iter().zip(g) {
        n += normal(*b) + right(*b, *g);
    }
    n
}

// The square root of each, correctly rounded. None is NaN.
pub fn roots(x: [f32; 40]) -> [f32; 40]
    requires { (k : ℕ) → k < 40 → NotNan (at x k) }
    ensures { result ≡ map sqrt_of x }
{
    let b: [u32; 40] = from_fn(|k| pattern(x[k]));
    let g: [u32; 40] = from_fn(|k| scalar::near_root(folded(b[k])));
    if passed(&b, &g) == 80 {
        return from_fn(|k| packed(b[k], g[k]));
    }
    from_fn(|k| scalar::sqrt(x[k]))
}
