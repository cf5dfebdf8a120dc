// The day's total for callers in any language: words in, words out. Each function answers 0, or the number of its refusal, and then leaves every lent word as it was.
// Stays: lists side by side, and words lent for what is answered, as callers in C have them.
#![tactic(auto)]

ghost use Rattle.std.specs.Prelude.{◌≡◌};
ghost use Rattle.refusal.specs.Number.{answer_number};
ghost use Rattle.port_totals.specs.Exports.{total_left};

use refusal::Refusal;

#[tactic(auto, unfolding(crate::specs::Exports::total_left))]
fn total_into(prices: &[u32], out: &mut [u32]) -> Result<(), Refusal>
    ensures { (answer_number result ≡ (total_left prices.now out.old).number) × (out.new ≡ (total_left prices.now out.old).words) }
{
    if out.len() < 1 {
        return Err(Refusal::Length);
    }
    answer_words::number_into(totals::total(prices), out)
}

// out: the cents
pub fn port_total(prices: &[u32], out: &mut [u32]) -> u32
    ensures { (result ≡ (total_left prices.now out.old).number) × (out.new ≡ (total_left prices.now out.old).words) }
{
    refusal::answer_number(&total_into(prices, out))
}

// the same, of prices that begin with the latest call: their order does not matter
pub fn port_total_last(prices: &[u32], out: &mut [u32]) -> u32
    ensures { (result ≡ (total_left prices.now out.old).number) × (out.new ≡ (total_left prices.now out.old).words) }
{
    port_total(prices, out)
}
