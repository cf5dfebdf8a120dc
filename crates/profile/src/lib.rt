// A slot's density profile, made of its layers: a squared plasma frequency at each of fifty heights.
#![tactic(auto)]

pub mod shape_densities;
pub mod shapes;
pub mod slot_curves;

ghost use Rattle.std.specs.Prelude.{◌≡◌, ◌<◌};
ghost use Rattle.profile.specs.Rising.{rises_of};
ghost use Rattle.profile.specs.Lecden.{slot_at, slot_written, slot_drawn, lecden_of, lecden_answer};

use crate::slot_curves::{Drawn, Slot};
use layers::{IonoState, Owner, owners};
use refusal::Refusal;

// The rising test: is each height below the next. A NaN fails it.
pub fn rises_throughout(htr: &[f32; 50]) -> bool
    ensures { result ≡ rises_of htr.now }
{
    htr.is_sorted_by(|lower, upper| *lower < *upper)
}

// Stays: `s` and `k` are the Rust's parameters here, in `slots` and in the crates above, and `k < 3` is asked of the number: it
// indexes the tables and counts loops, which would have to make a number of a type of its own at each turn.
pub fn slot_at(s: IonoState, k: usize) -> Slot
    requires { k < 3 }
    ensures { result ≡ slot_at s k }
{
    let e = 3 * k;
    let f1 = 3 * k + 1;
    let f2 = 3 * k + 2;
    Slot {
        fi0: s.fi[e],
        fi1: s.fi[f1],
        fi2: s.fi[f2],
        yi0: s.yi[e],
        yi1: s.yi[f1],
        yi2: s.yi[f2],
        hi0: s.hi[e],
        hi1: s.hi[f1],
        hi2: s.hi[f2],
        fsec: s.fsecv[k],
    }
}

fn write_slot(mut s: IonoState, k: usize, p: Slot) -> IonoState
    requires { k < 3 }
    ensures { result ≡ slot_written s k p }
{
    let f1 = 3 * k + 1;
    s.yi[f1] = p.yi1;
    s.hi[f1] = p.hi1;
    s.fsecv[k] = p.fsec;
    s
}

// The shapes of slot k as `lecden` is to find it; none where the profile came from outside.
pub fn drawn(s: IonoState, k: usize) -> Option<Drawn>
    requires { k < 3 }
    ensures { result ≡ slot_drawn s k }
{
    if s.ielect {
        return None;
    }
    Some(crate::slot_curves::draw(slot_at(s, k)))
}

// Slot k's profile; nothing where the profile is supplied.
pub fn lecden_slot(s: IonoState, k: usize) -> IonoState
    requires { k < 3 }
    ensures { result ≡ lecden_of s k }
{
    let Some(d) = drawn(s, k) else {
        return s;
    };
    let htr = d.htr;
    let fnsq = d.curves.densities(htr);
    let rises = rises_throughout(&htr);
    let mut r = write_slot(s, k, d.slot);
    r.htr = htr;
    r.fnsq = fnsq;
    r.htr_rises = rises;
    owners::with_owner(r, Owner::Slot(k))
}

pub fn lecden(s: IonoState, k: usize) -> Result<IonoState, Refusal>
    ensures { result ≡ lecden_answer s k }
{
    layers::slot_number(k)?;
    Ok(lecden_slot(s, k))
}
