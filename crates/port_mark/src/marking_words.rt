// A marking as a word.
// Stays: a word lent for what is answered, as callers in C have it.
ghost use Rattle.std.specs.Prelude.{◌≡◌, ◌≤◌, length};
ghost use Rattle.refusal.specs.Number.{answer_number};
ghost use Rattle.port_mark.specs.Words.{SmallLine, marking_into};

use refusal::Refusal;

// out: the number of the first line that is not ours, 0 where the sheet is the same; where it is
// refused, nothing is written.
pub fn marking_into(m: Result<Option<u64>, Refusal>, out: &mut [u32]) -> Result<(), Refusal>
    requires { (1 ≤ length out.old) × SmallLine m }
    ensures { (answer_number result ≡ answer_number m) × (out.new ≡ marking_into m out.old) }
{
    out[0] = m?.unwrap_or(0) as u32;
    Ok(())
}
