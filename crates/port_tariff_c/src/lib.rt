// The functions of port_tariff for callers in C, with the same contracts.
// Stays: lists side by side, and words lent for what is answered, as callers in C have them.
#![tactic(auto)]

ghost use Rattle.std.specs.Prelude.{◌≡◌};
ghost use Rattle.port_tariff.specs.Exports.{price_left};

// muf: its bits; tops in tenths of a MHz, rates in cents a minute; out: the cents
#[unsafe(no_mangle)]
pub extern "C" fn port_price(
    muf: u32,
    tops: &[u32],
    rates: &[u32],
    seconds: u32,
    out: &mut [u32],
) -> u32
    ensures { (result ≡ (price_left muf tops.now rates.now seconds out.old).number) × (out.new ≡ (price_left muf tops.now rates.now seconds out.old).words) }
{
    port_tariff::port_price(muf, tops, rates, seconds, out)
}
