// A cell of the reflectrix: a number is guessed with the machine's root, and a test of two products
// says whether it is the cell.
ghost use Rattle.std.specs.Prelude.{◌≡◌, ◌^◌, ◌≤◌, ◌<◌, pos, T};
ghost use Rattle.std.specs.Float.{binary32};
ghost use Rattle.std.specs.Float.Ieee.{fits, of_int, to_bits};
ghost use Rattle.std.specs.Float.Ieee.Positive.{positive};
ghost use Rattle.scalar.specs.F32.{◌-f◌, ◌*f◌, ◌≤f◌};
ghost use Rattle.scalar.specs.Literals.{f0_000001, f1};
ghost use Rattle.scalar.specs.Scalar.{max_of};
ghost use Rattle.reflectrix.specs.Cell.{khz_of, sqcos_of, tame, low_pattern_of, high_pattern_of, told_of};
ghost use Rattle.reflectrix.specs.Laws.{product_of};

// The square of the cosine before it is cut.
pub fn uncut(sphe: f32) -> f32
    ensures { result ≡ f1 -f sphe *f sphe }
{
    1.0 - sphe * sphe
}

// Cut at a millionth. Stays: one test where `scalar::max` has two, of which the compiler makes no vector instructions.
pub fn cut(square: f32) -> f32
    ensures { result ≡ max_of square f0_000001 }
{
    if square >= 0.000001 { square } else { 0.000001 }
}

// The square of the cosine at the layer, from the sine there.
pub fn squared_cosine(sphe: f32) -> f32
    ensures { (result ≡ sqcos_of sphe) × T (f0_000001 ≤f result) × T (result ≤f f1) }
{
    cut(uncut(sphe))
}

// The cell itself, with a root and a division.
// Stays: a row's fvv and an angle's sqcos meet in one cell and are no pair that is kept.
pub fn khz(fvv: f32, sqcos: f32) -> i32
    ensures { result ≡ khz_of fvv sqcos }
{
    let cphe = scalar::sqrt(sqcos);
    let freq = fvv / cphe;
    scalar::trunc(1000.0 * freq)
}

// A frequency at which the test can be trusted.
#[tactic(auto, unfolding(crate::specs::Cell::tame))]
fn is_tame(fvv: f32) -> bool
    ensures { result ≡ tame fvv }
{
    fvv == 0.0 || fvv >= 0.0009765625 && fvv <= 1024.0
}

// What a cell is guessed from: the frequency in kHz, or a number of which 0 is guessed. Above zero in any case.
pub fn plain(fvv: f32) -> f32
    ensures { T (positive result) }
{
    if fvv >= 0.0009765625 && fvv <= 1024.0 {
        1000.0 * fvv
    } else {
        0.000001
    }
}

// What the square of a number that is not above the cell, by the square of the cosine, is at most. By its
// pattern, as all that is tested: a comparison of whole numbers is made for several places at once. That the format
// holds fvv is said too, since an array does not tell it of its numbers.
// Stays: beside `high`, since one function of both would be handed the factor and what a frequency that is not tame gets.
pub fn low(fvv: f32) -> u32
    ensures value { result ≡ low_pattern_of fvv }
    ensures held { T (fits binary32 fvv) }
{
    if is_tame(fvv) {
        let khz = 1000.0 * fvv;
        return f32::to_bits(khz * khz * 0.99999917);
    }
    0
}

// What that of a number above the cell is at least.
pub fn high(fvv: f32) -> u32
    ensures { result ≡ high_pattern_of fvv }
{
    if is_tame(fvv) {
        let khz = 1000.0 * fvv;
        return f32::to_bits(khz * khz * 1.0000008);
    }
    0xffff_ffff
}

// A guess at the cell's kHz, with the root as the machine takes it: the whole number nearest to half a kHz
// less, as the last 22 digits of a sum's pattern. No proof rests on that: the test refuses a wrong guess.
pub fn guess(plain: f32, sqcos: f32) -> u32
    requires { T (positive plain) × T (f0_000001 ≤f sqcos) }
    ensures { result < 2 ^ 22 }
{
    f32::to_bits(plain / sqcos.sqrt() - 0.5 + 12582912.0) % 0x40_0000
}

// The number n as a float: 2^23 and n, of whose pattern n is the end, less 2^23.
// Stays: not a cast, which the compiler makes place by place.
fn whole(n: u32) -> f32
    requires { n ≤ 2 ^ 22 }
    ensures { result ≡ of_int binary32 (pos n) }
{
    f32::from_bits(0x4b00_0000 + n) - 8388608.0
}

// The square of n by the square of the cosine, by its pattern.
pub fn product(n: u32, sqcos: f32) -> u32
    requires { (n ≤ 2 ^ 22) × T (f0_000001 ≤f sqcos) × T (sqcos ≤f f1) }
    ensures { result ≡ to_bits binary32 (product_of n sqcos) }
{
    let x = whole(n);
    f32::to_bits(x * x * sqcos)
}

// From this number on an answer says that the cell is in doubt.
// Stays: the doubt is a number that no cell has, in the guess's own word; an Option for each of the thirty-two places of a row
// would take twice the room and a test at each.
pub const IN_DOUBT: u32 = 0x8000_0000;

// The number n where it passes the test, which says that it is the cell, else `IN_DOUBT`: by the patterns of the products
// of n and of n + 1, and of the bounds. Both are tested, with no branch.
pub fn told(n: u32, p: u32, q: u32, low: u32, high: u32) -> u32
    ensures { result ≡ told_of n p q low high }
{
    let kept = if p <= low { n } else { IN_DOUBT };
    if high <= q { kept } else { IN_DOUBT }
}
