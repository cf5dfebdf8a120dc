// The nominal MUF for callers in any language: words in, words out. It answers 0, or the number of
// its refusal, and then leaves every lent word as it was.
// Stays: points, f2m3, es, numbers and out are what callers in C lend, side by side.
ghost use Rattle.std.specs.Prelude.{◌≡◌, ◌+◌, ◌*◌, ◌/◌, ◌≤◌, length};
ghost use Rattle.refusal.specs.Number.{answer_number};
ghost use Rattle.port_muf.specs.NominalExports.{word_rows, nominal_words, nominal_left};

use crate::hour_words::Words;
use layers::EsParams;
use muf::MufHour;
use refusal::Refusal;

// Stays: that n is 5 at most is asked, since the export has just tested it, and refuses more by its number.
fn word_rows(es: &[u32], n: usize) -> [EsParams; 5]
    requires { (n ≤ 5) × (4 * n ≤ length es.now) }
    ensures { result ≡ word_rows es.now n }
{
    let zero = EsParams {
        fs: [0.0; 3],
        hs: 0.0,
    };
    port_state::five_rows_of(n, zero, |k| muf::flat_row(Words(es), k))
}

// The whole call but for what it writes.
fn called(points: &[u32], f2m3: &[u32], es: &[u32], numbers: &[u32]) -> Result<MufHour, Refusal>
    requires { (length points.now ≤ 45) × (length f2m3.now ≤ 5) × (2 ≤ length numbers.now) × (4 * (length points.now / 9) ≤ length es.now) }
    ensures { result ≡ nominal_words points.now f2m3.now es.now numbers.now (length points.now / 9) }
{
    let n = points.len() / 9;
    let m = f2m3.len();
    let gcd = scalar::number(numbers[0]);
    let gcdkm = scalar::number(numbers[1]);
    let p = port_state::points_of(points, n);
    let rows = word_rows(es, n);
    let mut x = [0.0; 5];
    port_state::floats_of(f2m3, 0, &mut x[..m]);
    nominal::nommuf(p, &x[..m], rows, n, gcd, gcdkm)
}

#[tactic(auto, unfolding(crate::specs::NominalExports::nominal_left, crate::specs::NominalExports::nominal_into, crate::specs::NominalExports::words_reach, crate::specs::NominalExports::five_at_most))]
fn nommuf_into(
    points: &[u32],
    f2m3: &[u32],
    es: &[u32],
    numbers: &[u32],
    out: &mut [u32],
) -> Result<(), Refusal>
    ensures { (answer_number result ≡ (nominal_left points.now f2m3.now es.now numbers.now out.old).number) × (out.new ≡ (nominal_left points.now f2m3.now es.now numbers.now out.old).words) }
{
    let len = points.len();
    if out.len() < 54 || numbers.len() < 2 || es.len() < 4 * (len / 9) {
        return Err(Refusal::Length);
    }
    if len % 9 != 0 || len > 45 || f2m3.len() > 5 {
        return Err(Refusal::PointCount);
    }
    let hour = called(points, f2m3, es, numbers)?;
    crate::hour_words::hour_into(hour, out);
    Ok(())
}

// points 9 words each: fi, yi, hi; f2m3 a word a point; es 4 words a row: fs 3, hs; numbers: gcd,
// gcdkm; out 54: the hour, as `port_curmuf` writes it
pub fn port_nommuf(
    points: &[u32],
    f2m3: &[u32],
    es: &[u32],
    numbers: &[u32],
    out: &mut [u32],
) -> u32
    ensures { (result ≡ (nominal_left points.now f2m3.now es.now numbers.now out.old).number) × (out.new ≡ (nominal_left points.now f2m3.now es.now numbers.now out.old).words) }
{
    refusal::answer_number(&nommuf_into(points, f2m3, es, numbers, out))
}
