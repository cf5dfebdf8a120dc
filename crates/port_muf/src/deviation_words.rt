// `f2dis` on words, the deciles as they are lent; a refusal leaves every lent word as it was.
// Stays: deciles, numbers and out are what callers in C lend, side by side.
ghost use Rattle.std.specs.Prelude.{◌≡◌};
ghost use Rattle.refusal.specs.Number.{answer_number};
ghost use Rattle.port_muf.specs.F2disWords.{f2dis_left};

use refusal::Refusal;

// deciles 576; numbers: fmuf, ssn, clat, freq, abb; out: the deviation
#[tactic(auto, unfolding(crate::specs::F2disWords::f2dis_left))]
pub fn f2dis_into(deciles: &[f32], numbers: &[u32], out: &mut [u32]) -> Result<(), Refusal>
    ensures { (answer_number result ≡ (f2dis_left deciles.now numbers.now out.old).number) × (out.new ≡ (f2dis_left deciles.now numbers.now out.old).words) }
{
    if numbers.len() < 5 || out.is_empty() {
        return Err(Refusal::Length);
    }
    let [fmuf, ssn, clat, freq, abb] = port_state::floats::<5>(numbers, 0);
    let d = deciles::f2dis(deciles, fmuf, ssn, clat, freq, abb);
    answer_words::float_into(d, out)
}
