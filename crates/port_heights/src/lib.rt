// Heights for callers in any language: words in, words out. Each function answers 0, or the number of its refusal, and then leaves every lent word as it was.
// Stays: lists of words lent side by side, as callers in C have them.
#![tactic(auto)]

pub mod height_words;

ghost use Rattle.std.specs.Prelude.{◌≡◌, ℕ, ◌≤◌, length, Float, IfOk, Result};
ghost use Rattle.std.specs.Borrow.{Bor};
ghost use Rattle.refusal.specs.Number.{answer_number};
ghost use Rattle.port_heights.specs.Exports.{state_with_room, heights_left, gethp_left, gethp_scan_left, reading_left, layer_left, bendy_left, pen_left, xlin_left};

use heights::Heights;
use layers::IonoState;
use port_state::STATE_WORDS;
use refusal::Refusal;

// The state, where it has its words and there is room for n of the answer.
// Inlined, so that the state is not copied out of the answer.
#[inline(always)]
#[tactic(auto, unfolding(crate::specs::Exports::state_with_room))]
fn state_with_room(state: &[u32], out: &[u32], n: usize) -> Result<IonoState, Refusal>
    ensures state { result ≡ state_with_room state.now out.now n }
    ensures room { IfOk result (λ s. n ≤ length out.now) }
{
    if state.len() < STATE_WORDS || out.len() < n {
        return Err(Refusal::Length);
    }
    Ok(port_state::state_of(state))
}

// The heights by a rule.
#[tactic(auto, unfolding(crate::specs::Exports::heights_left))]
fn heights_by<F: FnOnce(&IonoState, f32) -> Heights>(
    state: &[u32],
    fxx: u32,
    out: &mut [u32],
    rule: F,
) -> Result<(), Refusal>
    requires called { F.IsAlwaysCallable rule }
    requires cursor { (s : Bor IonoState) (x : Float) (h : Heights) → F.post rule s x h → h.cursor ≤ 49 }
    ensures { (of : IonoState → Float → Heights) → ((s : Bor IonoState) (x : Float) (h : Heights) → F.post rule s x h → h ≡ of s.now x)
        → (answer_number result ≡ (heights_left of state.now fxx out.old).number) × (out.new ≡ (heights_left of state.now fxx out.old).words) }
{
    let s = state_with_room(state, out, 4)?;
    crate::height_words::heights_into(rule(&s, scalar::number(fxx)), out);
    Ok(())
}

// state STATE_WORDS words; out: hp, ht, cursor, segment
pub fn port_gethp(state: &[u32], fxx: u32, out: &mut [u32]) -> u32
    ensures { (result ≡ (gethp_left state.now fxx out.old).number) × (out.new ≡ (gethp_left state.now fxx out.old).words) }
{
    refusal::answer_number(&heights_by(state, fxx, out, heights::gethp))
}

// the same by forty scans on every profile
pub fn port_gethp_scan(state: &[u32], fxx: u32, out: &mut [u32]) -> u32
    ensures { (result ≡ (gethp_scan_left state.now fxx out.old).number) × (out.new ≡ (gethp_scan_left state.now fxx out.old).words) }
{
    refusal::answer_number(&heights_by(state, fxx, out, heights::gethp_scan))
}

#[tactic(auto, unfolding(crate::specs::Exports::reading_left))]
fn reading(state: &[u32], zi: u32, out: &mut [u32]) -> Result<(), Refusal>
    ensures { (answer_number result ≡ (reading_left state.now zi out.old).number) × (out.new ≡ (reading_left state.now zi out.old).words) }
{
    let s = state_with_room(state, out, 3)?;
    let p = heights::lent(&s, s.htr_rises);
    crate::height_words::reading_into(p.read_by_scan(scalar::number(zi)), out);
    Ok(())
}

// the density at the height zi, by a scan; out: the kind (floor 0, segment 1, top 2), the density, the segment
pub fn port_reading(state: &[u32], zi: u32, out: &mut [u32]) -> u32
    ensures { (result ≡ (reading_left state.now zi out.old).number) × (out.new ≡ (reading_left state.now zi out.old).words) }
{
    refusal::answer_number(&reading(state, zi, out))
}

// A layer's number by a rule.
#[tactic(auto, unfolding(crate::specs::Exports::layer_left))]
fn layer_by<F: FnOnce(IonoState, usize, usize, f32) -> Result<f32, Refusal>>(
    state: &[u32],
    i: u32,
    k: u32,
    f: u32,
    out: &mut [u32],
    rule: F,
) -> Result<(), Refusal>
    requires called { F.IsAlwaysCallable rule }
    ensures { (of : IonoState → ℕ → ℕ → Float → Result Float Refusal) → ((s : IonoState) (i k : ℕ) (x : Float) (a : Result Float Refusal) → F.post rule s i k x a → a ≡ of s i k x)
        → (answer_number result ≡ (layer_left of state.now i k f out.old).number) × (out.new ≡ (layer_left of state.now i k f out.old).words) }
{
    let s = state_with_room(state, out, 1)?;
    let a = rule(s, i as usize, k as usize, scalar::number(f));
    answer_words::float_into(a, out)
}

// layer i of slot k; out: the value
pub fn port_bendy(state: &[u32], i: u32, k: u32, f: u32, out: &mut [u32]) -> u32
    ensures { (result ≡ (bendy_left state.now i k f out.old).number) × (out.new ≡ (bendy_left state.now i k f out.old).words) }
{
    refusal::answer_number(&layer_by(state, i, k, f, out, parabolas::bendy))
}

pub fn port_pen(state: &[u32], i: u32, k: u32, f: u32, out: &mut [u32]) -> u32
    ensures { (result ≡ (pen_left state.now i k f out.old).number) × (out.new ≡ (pen_left state.now i k f out.old).words) }
{
    refusal::answer_number(&layer_by(state, i, k, f, out, parabolas::pen))
}

#[tactic(auto, unfolding(crate::specs::Exports::xlin_left))]
fn xlin(x: u32, xn: &[u32], yn: &[u32], out: &mut [u32]) -> Result<(), Refusal>
    ensures { (answer_number result ≡ (xlin_left x xn.now yn.now out.old).number) × (out.new ≡ (xlin_left x xn.now yn.now out.old).words) }
{
    if xn.len() < 50 || yn.len() < 50 || out.len() < 2 {
        return Err(Refusal::Length);
    }
    let at = scalar::number(x);
    let xs = port_state::floats::<50>(xn, 0);
    let ys = port_state::floats::<50>(yn, 0);
    let f = readings::xlin::xlin(at, &xs, &ys);
    crate::height_words::found_into(f, out);
    Ok(())
}

// xn and yn 50 words each; out: the value, the segment
pub fn port_xlin(x: u32, xn: &[u32], yn: &[u32], out: &mut [u32]) -> u32
    ensures { (result ≡ (xlin_left x xn.now yn.now out.old).number) × (out.new ≡ (xlin_left x xn.now yn.now out.old).words) }
{
    refusal::answer_number(&xlin(x, xn, yn, out))
}
