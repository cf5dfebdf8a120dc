// The functions of port_layers for callers in C, with the same contracts.
// Stays: lists of words lent side by side, as callers in C have them.
#![tactic(auto)]

ghost use Rattle.std.specs.Prelude.{◌≡◌};
ghost use Rattle.port_layers.specs.Exports.{port_ionset, port_lecden, port_from_layers, port_owner};

#[unsafe(no_mangle)]
pub extern "C" fn port_ionset(state: &mut [u32]) -> u32
    ensures number { result ≡ (port_ionset state.old).number }
    ensures words { state.new ≡ (port_ionset state.old).words }
{
    port_layers::port_ionset(state)
}

#[unsafe(no_mangle)]
pub extern "C" fn port_lecden(state: &mut [u32], k: u32) -> u32
    ensures number { result ≡ (port_lecden state.old k).number }
    ensures words { state.new ≡ (port_lecden state.old k).words }
{
    port_layers::port_lecden(state, k)
}

#[unsafe(no_mangle)]
pub extern "C" fn port_from_layers(points: &[u32], state: &mut [u32]) -> u32
    ensures number { result ≡ (port_from_layers points.now state.old).number }
    ensures words { state.new ≡ (port_from_layers points.now state.old).words }
{
    port_layers::port_from_layers(points, state)
}

// Whose profile the state has; out: 0 for nobody's, 1 for a slot's, 2 for a supplied one; and the slot's number
#[unsafe(no_mangle)]
pub extern "C" fn port_owner(state: &[u32], out: &mut [u32]) -> u32
    ensures number { result ≡ (port_owner state.now out.old).number }
    ensures words { out.new ≡ (port_owner state.now out.old).words }
{
    port_layers::port_owner(state, out)
}
