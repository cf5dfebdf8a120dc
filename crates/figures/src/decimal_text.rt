// A number in decimals, rounded by its exact value and put into a field of a given width.
// Stays: functions of our own and no `Display`, for the reason in crate `lines`.
#![tactic(auto, using(lines::proofs::Placing::putting))]

ghost use Rattle.std.specs.Prelude.{◌≡◌, ◌++◌, ◌/◌, ◌%◌, ◌^◌, ◌≤◌, length};
ghost use Rattle.io.specs.Digits.{hex_digit_ascii, last_digits};
ghost use Rattle.lines.specs.Text.{decimal_of, with_text};
ghost use Rattle.lines.specs.Aligned.{right};
ghost use Rattle.figures.specs.Number.{placed_text, number_kind_of, number_text};

use lines::Page;

// What a number is, beside its size.
#[derive(Clone, Copy, Debug, PartialEq, Eq)]
pub enum NumberKind {
    NotANumber,
    Infinity,
    MinusInfinity,
    // finite, with its sign: either zero has one too
    Plus,
    Minus,
}

// Stays: that k is 9 at most is asked, here and of the two that count digits, since 10 ^ 10 is past a `u32`. A type of such numbers
// would ask the same where it is made, at each call of `put_number`.
fn ten_power(k: usize) -> u32
    requires { k ≤ 9 }
    ensures { result ≡ 10 ^ k }
{
    10u32.pow(k as u32)
}

// The digit of n that k others follow.
fn digit(n: u64, k: usize) -> u8
    requires { k ≤ 9 }
    ensures { result ≡ hex_digit_ascii (n / 10 ^ k % 10) }
{
    let q = n / ten_power(k) as u64;
    b'0' + (q % 10) as u8
}

// The last k digits of n, zeros in front too.
// Stays: a loop over the digits' places, from the first digit down; each is worked out from n, and no list of them is kept.
fn put_digits<const N: usize>(page: &mut Page<N>, k: usize, n: u64)
    requires { k ≤ 9 }
    ensures { page.new ≡ with_text N page.old (last_digits 10 k n) }
{
    for i in (0..k).rev() {
        page.put_byte(digit(n, i));
    }
}

// n units of the last place, with the decimal point.
#[tactic(auto, using(lines::proofs::Placing::putting), unfolding(crate::specs::Number::placed_text))]
fn put_placed<const N: usize>(page: &mut Page<N>, places: usize, n: u64)
    requires { places ≤ 9 }
    ensures { page.new ≡ with_text N page.old (placed_text places n) }
{
    page.put_decimal(n / ten_power(places) as u64);
    page.put_byte(b'.');
    put_digits(page, places, n);
}

fn kind_of(v: f32) -> NumberKind
    ensures { result ≡ number_kind_of v }
{
    if v.is_nan() {
        return NumberKind::NotANumber;
    }
    if v.is_infinite() {
        if v.is_sign_negative() {
            return NumberKind::MinusInfinity;
        }
        return NumberKind::Infinity;
    }
    if v.is_sign_negative() {
        return NumberKind::Minus;
    }
    NumberKind::Plus
}

// n units after their sign, if they have one, at the right of so many characters.
// Stays: width and places, here and in `put_number`, are as in Rust's `{:10.3}`: each call says both, and a struct of the two would
// be made at each and taken apart here.
pub fn put_units<const N: usize>(
    page: &mut Page<N>,
    width: usize,
    sign: &[u8],
    places: usize,
    n: u64,
)
    requires { (length sign.now ≤ 1) × (places ≤ 9) }
    ensures { page.new ≡ with_text N page.old (right width (sign.now ++ placed_text places n)) }
{
    let mut text: Page<31> = Page::new();
    text.put_word(sign);
    put_placed(&mut text, places, n);
    lines::aligned::put_right(page, width, text.text());
}

// n in decimal digits, at the right of so many characters.
pub fn put_whole<const N: usize>(page: &mut Page<N>, width: usize, n: u64)
    ensures { page.new ≡ with_text N page.old (right width (decimal_of n)) }
{
    let mut text: Page<20> = Page::new();
    text.put_decimal(n);
    lines::aligned::put_right(page, width, text.text());
}

// v with so many decimal places, at the right of so many characters.
pub fn put_number<const N: usize>(page: &mut Page<N>, width: usize, places: usize, v: f32)
    requires { (width ≤ 10) × (places ≤ 9) }
    ensures { page.new ≡ with_text N page.old (number_text width places v) }
{
    let n = crate::times(v, ten_power(places));
    match kind_of(v) {
        NumberKind::NotANumber => lines::aligned::put_right(page, width, b"NaN"),
        NumberKind::Infinity => lines::aligned::put_right(page, width, b"inf"),
        NumberKind::MinusInfinity => lines::aligned::put_right(page, width, b"-inf"),
        NumberKind::Plus => put_units(page, width, b"", places, n),
        NumberKind::Minus if n == 0 => put_units(page, width, b"", places, n),
        NumberKind::Minus => put_units(page, width, b"-", places, n),
    }
}
