// The total of a day's calls, as the depot page has it: the sum of their prices in cents, alone. It is
// the same from the first call, from the last, or in any other order.
#![tactic(auto)]

ghost use Rattle.std.specs.Prelude.{◌≡◌};
ghost use Rattle.totals.specs.Total.{prices_good, total_of};

use refusal::Refusal;

fn prices_good(prices: &[u32]) -> bool
    ensures { result ≡ prices_good prices.now }
{
    prices.iter().all(|p| *p <= 14_400_000)
}

// The sum of the prices, which no order of the calls changes.
pub fn total(prices: &[u32]) -> Result<u32, Refusal>
    ensures { result ≡ total_of prices.now }
{
    if prices.len() > 256 || !prices_good(prices) {
        return Err(Refusal::Prices);
    }
    Ok(prices.iter().sum())
}
