// A decimal as a person writes it, as the nearest f32: by whole numbers only.
// Stays: `whole` and `rest` beside each other are what stands before and after the point, texts with lengths of their own; one list
// of pairs could not hold them.
mod fraction;

ghost use Rattle.std.specs.Prelude.{◌≡◌, true, ◌&&◌, leb, ◌+◌, ◌-◌, ◌*◌, ◌^◌, ◌≤◌, length};
ghost use Rattle.std.specs.List.{list_all};
ghost use Rattle.composing.specs.Decimal.{is_digit, all_digits, value_from, fine_of, parts_of, unsigned_of, starts_with_minus, sign_length, decimal_read};

pub use fraction::nearest_bits;

fn digits(t: &[u8]) -> bool
    ensures { result ≡ list_all is_digit t.now }
{
    t.iter().all(u8::is_ascii_digit)
}

fn value(t: &[u8], from: u32) -> u32
    requires { (all_digits t.now ≡ true) × ((from + 1) * 10 ^ length t.now ≤ 10 ^ 9) }
    ensures { (result ≡ value_from from t.now) × (result + 1 ≤ (from + 1) * 10 ^ length t.now) }
{
    let mut v = from;
    for b in t {
        v = 10 * v + u32::from(b - b'0');
    }
    v
}

// One digit to nine, so many before the point and so many after it.
fn one_to_nine(a: usize, b: usize) -> bool
    ensures { result ≡ (leb 1 (a + b) && leb (a + b) 9) }
{
    (1..=9).contains(&a.saturating_add(b))
}

#[tactic(auto, using(crate::proofs::decimals::DigitLists::all_listed), unfolding(crate::specs::Decimal::fine_of))]
fn fine(whole: &[u8], rest: &[u8]) -> bool
    ensures { result ≡ fine_of whole.now rest.now }
{
    digits(whole) && digits(rest) && one_to_nine(whole.len(), rest.len())
}

fn parts(minus: bool, whole: &[u8], rest: &[u8]) -> Option<u32>
    ensures { result ≡ parts_of minus whole.now rest.now }
{
    if !fine(whole, rest) {
        return None;
    }
    let v = value(rest, value(whole, 0));
    Some(nearest_bits(minus, v, rest.len() as u32))
}

fn unsigned(minus: bool, u: &[u8]) -> Option<u32>
    ensures { result ≡ unsigned_of minus u.now }
{
    let p = crate::words::until(u, b'.');
    let e = (p + 1).min(u.len());
    parts(minus, &u[..p], &u[e..])
}

// The bits of the f32 nearest to the decimal that a word is; none where it is not a decimal of one to nine digits.
pub fn read_decimal(word: &[u8]) -> Option<u32>
    ensures { result ≡ decimal_read word.now }
{
    match word {
        [b'-', rest @ ..] => unsigned(true, rest),
        [b'+', rest @ ..] => unsigned(false, rest),
        _ => unsigned(false, word),
    }
}
