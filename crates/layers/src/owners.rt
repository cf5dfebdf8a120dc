// Whose profile a state has: stored by `lecden`, made none by `ionset`, read here alone.
ghost use Rattle.std.specs.Prelude.{false, ◌≡◌};
ghost use Rattle.layers.specs.State.{with_owner};
ghost use Rattle.layers.specs.Owners.{owner_number, owner_slot, owner_by, owner_of, answers_for, owned_by, disowned};

use super::{IonoState, Owner};

impl From<Owner> for u32 {
    // 0 for nobody, 1 for a slot, 2 for a supplied profile
    ghost from_gives = { λ o n. n ≡ owner_number o };

    // Stays: a case holds a value, so no number stands beside the cases to be read by `as`.
    fn from(o: Owner) -> u32 {
        match o {
            Owner::None => 0,
            Owner::Slot(_) => 1,
            Owner::Supplied => 2,
        }
    }
}

impl Owner {
    // The slot's number, 0 beside the others.
    // Stays: a number, since callers in C have the two side by side, and this is what they are handed.
    pub fn slot(self) -> usize
        ensures { result ≡ owner_slot self }
    {
        match self {
            Owner::Slot(k) => k,
            Owner::None | Owner::Supplied => 0,
        }
    }

    // What counts where `ielect` is not set: a stored "supplied" is none.
    fn unsupplied(self) -> Owner
        ensures { result ≡ owner_by false self }
    {
        match self {
            Owner::Supplied => Owner::None,
            stored => stored,
        }
    }

    fn answers_for(self, k: usize) -> bool
        ensures { result ≡ answers_for self k }
    {
        self == Owner::Supplied || self == Owner::Slot(k)
    }
}

// Whose profile it is. While `ielect` is set it is supplied, whatever is stored.
pub fn owner_of(s: IonoState) -> Owner
    ensures { result ≡ owner_of s }
{
    if s.ielect {
        return Owner::Supplied;
    }
    s.owner.unsupplied()
}

// Whether the profile is slot k's: made for it, or supplied.
pub fn owned_by(s: IonoState, k: usize) -> bool
    ensures { result ≡ owned_by s k }
{
    owner_of(s).answers_for(k)
}

// The state with another owner.
pub fn with_owner(mut s: IonoState, owner: Owner) -> IonoState
    ensures { result ≡ with_owner s owner }
{
    s.owner = owner;
    s
}

// Nobody's, unless the profile is supplied.
pub fn disown(s: IonoState) -> IonoState
    ensures { result ≡ disowned s }
{
    if s.ielect {
        return s;
    }
    with_owner(s, Owner::None)
}
