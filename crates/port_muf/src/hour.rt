// The circuit MUF on words. Es rows may be any number: each is read when its turn comes.
// Stays: the lists of words, state, es, clat, clck, numbers and out, are what callers in C lend, side by side.
ghost use Rattle.std.specs.Prelude.{◌≡◌, ◌≤◌, length};
ghost use Rattle.refusal.specs.Number.{answer_number};
ghost use Rattle.port_muf.specs.Exports.{leaves, path_numbers_of, curmuf_left};

use crate::hour_words::Words;
use layer_mufs::PathNumbers;
use port_state::STATE_WORDS;
use refusal::Refusal;

fn path_numbers_of(numbers: &[u32]) -> PathNumbers
    requires { 4 ≤ length numbers.now }
    ensures { result ≡ path_numbers_of numbers.now }
{
    let [gcd, gcdkm, amind, ssn] = port_state::floats::<4>(numbers, 0);
    PathNumbers {
        gcd,
        gcdkm,
        amind,
        ssn,
    }
}

#[tactic(auto, unfolding(crate::specs::Exports::curmuf_left, crate::specs::Exports::done_left))]
fn curmuf_into(
    state: &mut [u32],
    es: &mut [u32],
    deciles: &[f32],
    clat: &[u32],
    clck: &[u32],
    numbers: &[u32],
    out: &mut [u32],
) -> Result<(), Refusal>
    ensures { leaves (answer_number result) state.new es.new out.new ≡ curmuf_left state.old es.old deciles.now clat.now clck.now numbers.now out.old }
{
    if state.len() < STATE_WORDS || numbers.len() < 4 || out.len() < 54 {
        return Err(Refusal::Length);
    }
    let s = port_state::state_of(state);
    let c = path_numbers_of(numbers);
    let d = muf::flat(s, Words(es), deciles, Words(clat), Words(clck), c)?;
    let a = d.answer;
    port_state::state_into(a.state, state);
    crate::hour_words::es_into(d.rewrite, es);
    crate::hour_words::hour_into(a.hour, out);
    Ok(())
}

// state STATE_WORDS words; es 4 words a row: fs 3, hs; deciles 576; numbers: gcd, gcdkm, amind, ssn;
// out 54: the hour's numbers, its mode and controlling slot, four lines of eleven words
pub fn port_curmuf(
    state: &mut [u32],
    es: &mut [u32],
    deciles: &[f32],
    clat: &[u32],
    clck: &[u32],
    numbers: &[u32],
    out: &mut [u32],
) -> u32
    ensures { leaves result state.new es.new out.new ≡ curmuf_left state.old es.old deciles.now clat.now clck.now numbers.now out.old }
{
    refusal::answer_number(&curmuf_into(state, es, deciles, clat, clck, numbers, out))
}
