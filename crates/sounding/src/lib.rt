// `genion`: a slot's thirty sounding frequencies, and the virtual and the true height of each.
#![tactic(auto)]

pub mod sounding_grid;
pub mod sounding_rows;

ghost use Rattle.std.specs.Prelude.{◌≡◌, ◌<◌};
ghost use Rattle.sounding.specs.Genion.{fvert_at, genion_of, genion_answer};

use layers::{IonoState, owners};
use reflectrix::Ionogram;
use refusal::Refusal;

fn fvert_at(s: IonoState, k: usize) -> [f32; 30]
    requires { k < 3 }
    ensures { result ≡ fvert_at s k }
{
    let l = profile::slot_at(s, k);
    crate::sounding_grid::fvert(l.fi0, l.fi1, l.fi2)
}

// The ionogram of slot k, whose number is at most 2.
pub fn genion_slot(s: IonoState, k: usize) -> Ionogram
    requires { k < 3 }
    ensures { result ≡ genion_of s k }
{
    let fv = fvert_at(s, k);
    crate::sounding_rows::rows(s, k, fv)
}

// The ionogram of a slot that the profile was made for, or of any slot off a supplied profile.
pub fn genion(s: IonoState, k: usize) -> Result<Ionogram, Refusal>
    ensures { result ≡ genion_answer s k }
{
    layers::slot_number(k)?;
    if !owners::owned_by(s, k) {
        return Err(Refusal::Owner);
    }
    Ok(genion_slot(s, k))
}
