// What a call costs: the relay stations charge by band. A tariff is a list of tops, in tenths of a MHz, and a list of
// rates, in cents a minute; the band of a call is the first whose top is not below the printed figure of its MUF.
// Stays: `tops` and `rates` side by side, and `seconds` beside them in the price, as callers in C lend them; a list of bands would be
// made of them by a copy.
#![tactic(auto)]

ghost use Rattle.std.specs.Prelude.{◌≡◌, true};
ghost use Rattle.tariff.specs.Price.{within, rising, tariff_good, band_of, rounded_up, figure_price, price_of};

use figures::Printed;
use refusal::Refusal;

fn all_within(most: u32, xs: &[u32]) -> bool
    ensures { result ≡ within most xs.now }
{
    xs.iter().all(|x| *x <= most)
}

// Stays: `rises` of `traces` and `rises_throughout` of `profile` are this one call too, the latter on floats; one function for
// them would make one crate stand on another, or be a crate.
fn rises(tops: &[u32]) -> bool
    ensures { result ≡ rising tops.now }
{
    tops.is_sorted_by(|below, top| *below < *top)
}

// Is the tariff as described, in every band.
fn good(tops: &[u32], rates: &[u32]) -> bool
    ensures { result ≡ tariff_good tops.now rates.now }
{
    tops.len() == rates.len()
        && (1..=16).contains(&tops.len())
        && all_within(9999, tops)
        && rises(tops)
        && all_within(10000, rates)
}

// The first band whose top is not below the figure, if there is one.
fn first_band(tenths: u32, tops: &[u32]) -> Option<usize>
    ensures { result ≡ band_of tenths tops.now }
{
    tops.iter().position(|top| *top >= tenths)
}

// A sixtieth, rounded up to a whole number.
fn rounded_up(n: u32) -> u32
    ensures { result ≡ rounded_up n }
{
    n.div_ceil(60)
}

// The price by a figure's tenths.
fn figure_price(tenths: u32, tops: &[u32], rates: &[u32], seconds: u32) -> Result<u32, Refusal>
    requires { tariff_good tops.now rates.now ≡ true }
    ensures { result ≡ figure_price tenths tops.now rates.now seconds }
{
    let band = first_band(tenths, tops).ok_or(Refusal::Tariff)?;
    if !(1..=86400).contains(&seconds) {
        return Err(Refusal::Seconds);
    }
    Ok(rounded_up(rates[band] * seconds))
}

// The price in cents of a call of so many seconds, whose MUF decides the band.
pub fn price(muf: f32, tops: &[u32], rates: &[u32], seconds: u32) -> Result<u32, Refusal>
    ensures { result ≡ price_of muf tops.now rates.now seconds }
{
    if !good(tops, rates) {
        return Err(Refusal::Tariff);
    }
    match figures::figure(muf) {
        Printed::Tenths(n) => figure_price(n, tops, rates, seconds),
        Printed::Minus(_) | Printed::Stars | Printed::Infinite | Printed::NotANumber => Err(
            Refusal::Tariff,
        ),
    }
}
