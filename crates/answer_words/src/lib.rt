// An answer in one word for callers in any language: the number that it is; where it is refused, nothing is written.
// Stays: `out`, words that are lent, as callers in C have them. The room is tested before all else, where they are lent.
#![tactic(auto)]

ghost use Rattle.std.specs.Prelude.{◌≡◌, ◌^◌, ◌≤◌, ◌<◌, length};
ghost use Rattle.refusal.specs.Number.{answer_number};
ghost use Rattle.std.specs.Result.{result_unwrap_or};
ghost use Rattle.answer_words.specs.Words.{number_left, float_left};

use refusal::Refusal;

// The number into the first word; where it is refused, the words stay.
// Stays: a number, a count and a float by three functions, whose one store differs. `number_into(answer.map(|n| n as u32), out)`
// hands on a `Result` that is made for it, and of the closure, which casts, each caller's proof needs a lemma: tried, it didn't close.
pub fn number_into(answer: Result<u32, Refusal>, out: &mut [u32]) -> Result<(), Refusal>
    requires { 1 ≤ length out.old }
    ensures { (answer_number result ≡ answer_number answer) × (out.new ≡ number_left answer out.old) }
{
    out[0] = answer?;
    Ok(())
}

// So a count, a usize here and a word there.
pub fn count_into(answer: Result<usize, Refusal>, out: &mut [u32]) -> Result<(), Refusal>
    requires { (1 ≤ length out.old) × (result_unwrap_or answer 0 < 2 ^ 32) }
    ensures { (answer_number result ≡ answer_number answer) × (out.new ≡ number_left answer out.old) }
{
    out[0] = answer? as u32;
    Ok(())
}

// And a float, by its bits.
pub fn float_into(answer: Result<f32, Refusal>, out: &mut [u32]) -> Result<(), Refusal>
    requires { 1 ≤ length out.old }
    ensures { (answer_number result ≡ answer_number answer) × (out.new ≡ float_left answer out.old) }
{
    out[0] = scalar::bits(answer?);
    Ok(())
}
