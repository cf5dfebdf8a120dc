// The marking of a sheet for callers in any language: bytes in, a word out. The function answers 0, or the number of its refusal, and then leaves every lent word as it was.
// Stays: words lent and a number answered, as callers in C have them.
#![tactic(auto)]

pub mod marking_words;

ghost use Rattle.std.specs.Prelude.{◌≡◌};
ghost use Rattle.refusal.specs.Number.{answer_number};
ghost use Rattle.port_mark.specs.Exports.{mark_left};

use refusal::Refusal;

#[tactic(auto, unfolding(crate::specs::Exports::mark_left))]
fn mark_into(input: &[u8], out: &mut [u32]) -> Result<(), Refusal>
    ensures { (answer_number result ≡ (mark_left input.now out.old).number) × (out.new ≡ (mark_left input.now out.old).words) }
{
    if out.len() < 1 {
        return Err(Refusal::Length);
    }
    let m = marking::mark(input);
    crate::marking_words::marking_into(m, out)
}

// input: the file's length in four bytes, the file, the sheet; out: the number of the first line that is not ours, 0 where the sheet is the same
pub fn port_mark(input: &[u8], out: &mut [u32]) -> u32
    ensures { (result ≡ (mark_left input.now out.old).number) × (out.new ≡ (mark_left input.now out.old).words) }
{
    refusal::answer_number(&mark_into(input, out))
}
