// The functions of port_totals for callers in C, with the same contracts.
// Stays: lists side by side, and words lent for what is answered, as callers in C have them.
#![tactic(auto)]

ghost use Rattle.std.specs.Prelude.{◌≡◌};
ghost use Rattle.port_totals.specs.Exports.{total_left};

// out: the cents
#[unsafe(no_mangle)]
pub extern "C" fn port_total(prices: &[u32], out: &mut [u32]) -> u32
    ensures { (result ≡ (total_left prices.now out.old).number) × (out.new ≡ (total_left prices.now out.old).words) }
{
    port_totals::port_total(prices, out)
}

// the same, of prices that begin with the latest call: their order does not matter
#[unsafe(no_mangle)]
pub extern "C" fn port_total_last(prices: &[u32], out: &mut [u32]) -> u32
    ensures { (result ≡ (total_left prices.now out.old).number) × (out.new ≡ (total_left prices.now out.old).words) }
{
    port_totals::port_total_last(prices, out)
}
