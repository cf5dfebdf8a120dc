// The theorem on lists of calls needs no code. One function says of the states that code holds what the theorem asks of a first state where it speaks of walks.
#![tactic(auto)]

ghost use Rattle.std.specs.Prelude.{◌≡◌};
ghost use Rattle.call_lists.specs.Lists.{HeldState};

use layers::IonoState;

// Hands a state back as it came. It is here for its promise: whoever holds a state, made by `ionset` or in any other way, holds f32 numbers.
pub fn held(s: IonoState) -> IonoState
    ensures { (result ≡ s) × HeldState s }
{
    s
}
