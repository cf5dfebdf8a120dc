// The function of port_mark for callers in C, with the same contract.
// Stays: words lent and a number answered, as callers in C have them.
#![tactic(auto)]

ghost use Rattle.std.specs.Prelude.{◌≡◌};
ghost use Rattle.port_mark.specs.Exports.{mark_left};

// input: the file's length in four bytes, the file, the sheet; out: the number of the first line that is not ours, 0 where the sheet is the same
#[unsafe(no_mangle)]
pub extern "C" fn port_mark(input: &[u8], out: &mut [u32]) -> u32
    ensures { (result ≡ (mark_left input.now out.old).number) × (out.new ≡ (mark_left input.now out.old).words) }
{
    port_mark::port_mark(input, out)
}
