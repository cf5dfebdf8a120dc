// `f2dis` and the circuit MUF for callers in any language: words in, words out, but
// for the deciles, which are lent as numbers. Each function answers 0, or the number of its
// refusal, and then leaves every lent word as it was.
// Stays: deciles, numbers and out are what callers in C lend, side by side.
#![tactic(auto)]

pub mod deviation_words;
pub mod hour_words;
pub mod port_nominal;

ghost use Rattle.std.specs.Prelude.{◌≡◌};
ghost use Rattle.port_muf.specs.F2disWords.{f2dis_left};

pub mod hour;

// deciles 576; numbers: fmuf, ssn, clat, freq, abb; out: the deviation
pub fn port_f2dis(deciles: &[f32], numbers: &[u32], out: &mut [u32]) -> u32
    ensures { (result ≡ (f2dis_left deciles.now numbers.now out.old).number) × (out.new ≡ (f2dis_left deciles.now numbers.now out.old).words) }
{
    refusal::answer_number(&crate::deviation_words::f2dis_into(deciles, numbers, out))
}
