// The price of a call for callers in any language: words in, words out. The function answers 0, or the number of its refusal, and then leaves every lent word as it was.
// Stays: lists side by side, and words lent for what is answered, as callers in C have them.
#![tactic(auto)]

ghost use Rattle.std.specs.Prelude.{◌≡◌};
ghost use Rattle.refusal.specs.Number.{answer_number};
ghost use Rattle.port_tariff.specs.Exports.{price_left};

use refusal::Refusal;

#[tactic(auto, unfolding(crate::specs::Exports::price_left))]
fn price_into(
    muf: u32,
    tops: &[u32],
    rates: &[u32],
    seconds: u32,
    out: &mut [u32],
) -> Result<(), Refusal>
    ensures { (answer_number result ≡ (price_left muf tops.now rates.now seconds out.old).number) × (out.new ≡ (price_left muf tops.now rates.now seconds out.old).words) }
{
    if out.len() < 1 {
        return Err(Refusal::Length);
    }
    answer_words::number_into(
        tariff::price(scalar::number(muf), tops, rates, seconds),
        out,
    )
}

// muf: its bits; tops in tenths of a MHz, rates in cents a minute; out: the cents
pub fn port_price(muf: u32, tops: &[u32], rates: &[u32], seconds: u32, out: &mut [u32]) -> u32
    ensures { (result ≡ (price_left muf tops.now rates.now seconds out.old).number) × (out.new ≡ (price_left muf tops.now rates.now seconds out.old).words) }
{
    refusal::answer_number(&price_into(muf, tops, rates, seconds, out))
}
