// Numbers as they are printed: an exact product rounded to the nearest whole number, an exact half to
// the even one, and the figure of a MUF in tenths.
#![tactic(auto)]

pub mod decimal_text;
pub mod figure_text;

ghost use Rattle.std.specs.Prelude.{◌≡◌, true, false, ◌<◌, min};
ghost use Rattle.figures.specs.Nearest.{nearest as nearest_of, past, times_of};
ghost use Rattle.figures.specs.Figure.{signed_tenths, figure_of, figure_number, figure_tenths};

// The printed figure of a MUF.
#[derive(Clone, Copy, Debug, PartialEq, Eq)]
pub enum Printed {
    // 0.0 to 999.9: its tenths, 0 to 9999
    Tenths(u32),
    // -0.1 to -99.9: the tenths of its size, 1 to 999
    Minus(u32),
    // more than five characters
    Stars,
    Infinite,
    NotANumber,
}

// n / d to the nearest whole number, an exact half to the even one.
// Stays: n and d are a quotient's two numbers, and no pair that is kept.
pub fn nearest(n: u64, d: u64) -> u64
    requires { 0 < d }
    ensures { result ≡ nearest_of n d }
{
    let q = n / d;
    let rest = n % d;
    if rest < d - rest {
        return q;
    }
    if d - rest < rest {
        return q + 1;
    }
    q + q % 2
}

// What is not a u32 is 2^32.
fn kept(n: u64) -> u64
    ensures { result ≡ min n past }
{
    n.min(0x1_0000_0000)
}

// k times the size of v, an exact product, to the nearest whole number, an exact half to the even one;
// 2^32 where that is not a u32. By the pattern: v's 24 digits, times k, are to be shifted by the exponent.
// Stays: a number past every u32 and no `None`: each caller turns it away by the one test that turns away all that
// is too large for its figure, text, axis or trace.
pub fn times(v: f32, k: u32) -> u64
    ensures { result ≡ times_of k v }
{
    let size = scalar::bits(v) % 0x8000_0000;
    let field = size / 0x80_0000;
    if field == 255 {
        return 0x1_0000_0000;
    }
    // below 2^-33, the subnormal ones too
    if field < 94 {
        return 0;
    }
    let n = (0x80_0000 + size % 0x80_0000) as u64 * k as u64;
    if field < 150 {
        return kept(nearest(n, fixed::power(150 - field)));
    }
    if field < 159 {
        return kept(n * fixed::power(field - 150));
    }
    if k == 0 {
        return 0;
    }
    0x1_0000_0000
}

fn plus(n: u64) -> Printed
    ensures { result ≡ signed_tenths false n }
{
    if n < 10000 {
        return Printed::Tenths(n as u32);
    }
    Printed::Stars
}

fn minus(n: u64) -> Printed
    ensures { result ≡ signed_tenths true n }
{
    if n == 0 {
        return Printed::Tenths(0);
    }
    if n < 1000 {
        return Printed::Minus(n as u32);
    }
    Printed::Stars
}

pub fn figure(v: f32) -> Printed
    ensures { result ≡ figure_of v }
{
    if v.is_nan() {
        return Printed::NotANumber;
    }
    if v.is_infinite() {
        return Printed::Infinite;
    }
    let n = times(v, 10);
    if v.is_sign_negative() {
        return minus(n);
    }
    plus(n)
}

impl Printed {
    // The case's number.
    // Stays: a figure has two numbers, this and its tenths, and a `From` would not say which it gives.
    pub fn number(self) -> u32
        ensures { result ≡ figure_number self }
    {
        match self {
            Printed::Tenths(_) => 0,
            Printed::Minus(_) => 1,
            Printed::Stars => 2,
            Printed::Infinite => 3,
            Printed::NotANumber => 4,
        }
    }

    // Its tenths, or 0 where it has none.
    // Stays: a number, since the case says whether there are any.
    pub fn tenths(self) -> u32
        ensures { result ≡ figure_tenths self }
    {
        match self {
            Printed::Tenths(n) => n,
            Printed::Minus(n) => n,
            Printed::Stars => 0,
            Printed::Infinite => 0,
            Printed::NotANumber => 0,
        }
    }
}
