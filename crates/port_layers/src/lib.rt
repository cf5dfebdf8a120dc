// `from_layers`, `ionset`, `lecden` and whose profile a state has, for callers in any language: words in, words out.
// Lengths are checked first; a refused call leaves every word.
// Stays: lists of words lent side by side, of any length, as callers in C have them; so a function asks that a state's words are there.
// `ionset_into` stands beside `lecden_into`: one function of both would be handed the rule, with all that may refuse it.
#![tactic(auto)]

ghost use Rattle.std.specs.Prelude.{◌≡◌, ◌≤◌, length};
ghost use Rattle.port_layers.specs.Exports.{port_ionset, port_lecden, port_from_layers, owner_pair, port_owner};
ghost use Rattle.refusal.specs.Number.{answer_number};

use layers::{Owner, owners};
use port_state::{STATE_WORDS, count, points_of, state_into, state_of};
use refusal::Refusal;

#[tactic(auto, unfolding(crate::specs::Exports::port_ionset, crate::specs::Exports::ported_state_of))]
fn ionset_into(state: &mut [u32]) -> Result<(), Refusal>
    ensures number { answer_number result ≡ (port_ionset state.old).number }
    ensures words { state.new ≡ (port_ionset state.old).words }
{
    if state.len() < STATE_WORDS {
        return Err(Refusal::Length);
    }
    let s = layers::slots::ionset(state_of(state))?;
    state_into(s, state);
    Ok(())
}

pub fn port_ionset(state: &mut [u32]) -> u32
    ensures number { result ≡ (port_ionset state.old).number }
    ensures words { state.new ≡ (port_ionset state.old).words }
{
    refusal::answer_number(&ionset_into(state))
}

#[tactic(auto, unfolding(crate::specs::Exports::port_lecden, crate::specs::Exports::ported_state_of))]
fn lecden_into(state: &mut [u32], k: u32) -> Result<(), Refusal>
    ensures number { answer_number result ≡ (port_lecden state.old k).number }
    ensures words { state.new ≡ (port_lecden state.old k).words }
{
    if state.len() < STATE_WORDS {
        return Err(Refusal::Length);
    }
    let s = profile::lecden(state_of(state), k as usize)?;
    state_into(s, state);
    Ok(())
}

pub fn port_lecden(state: &mut [u32], k: u32) -> u32
    ensures number { result ≡ (port_lecden state.old k).number }
    ensures words { state.new ≡ (port_lecden state.old k).words }
{
    refusal::answer_number(&lecden_into(state, k))
}

#[tactic(auto, unfolding(crate::specs::Exports::port_from_layers, crate::specs::Exports::ported_state_of))]
fn from_layers_into(points: &[u32], state: &mut [u32]) -> Result<(), Refusal>
    ensures number { answer_number result ≡ (port_from_layers points.now state.old).number }
    ensures words { state.new ≡ (port_from_layers points.now state.old).words }
{
    if state.len() < STATE_WORDS {
        return Err(Refusal::Length);
    }
    let len = points.len();
    if len % 9 != 0 || len > 45 {
        return Err(Refusal::PointCount);
    }
    let n = len / 9;
    let s = layers::slots::from_layers(points_of(points, n), n)?;
    state_into(s, state);
    Ok(())
}

pub fn port_from_layers(points: &[u32], state: &mut [u32]) -> u32
    ensures number { result ≡ (port_from_layers points.now state.old).number }
    ensures words { state.new ≡ (port_from_layers points.now state.old).words }
{
    refusal::answer_number(&from_layers_into(points, state))
}

fn owner_pair(o: Owner, out: &mut [u32])
    requires { 2 ≤ length out.old }
    ensures { out.new ≡ owner_pair o out.old }
{
    out[0] = u32::from(o);
    out[1] = count(o.slot());
}

#[tactic(auto, unfolding(crate::specs::Exports::port_owner))]
fn owner_into(state: &[u32], out: &mut [u32]) -> Result<(), Refusal>
    ensures number { answer_number result ≡ (port_owner state.now out.old).number }
    ensures words { out.new ≡ (port_owner state.now out.old).words }
{
    if state.len() < STATE_WORDS || out.len() < 2 {
        return Err(Refusal::Length);
    }
    owner_pair(owners::owner_of(state_of(state)), out);
    Ok(())
}

// Whose profile the state has; out: 0 for nobody's, 1 for a slot's, 2 for a supplied one; and the slot's number
pub fn port_owner(state: &[u32], out: &mut [u32]) -> u32
    ensures number { result ≡ (port_owner state.now out.old).number }
    ensures words { out.new ≡ (port_owner state.now out.old).words }
{
    refusal::answer_number(&owner_into(state, out))
}
