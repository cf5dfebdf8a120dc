// `selmod`: the slot by which ray paths are worked out.
// Stays: beside `controlling_slot` of crate `layer_mufs`, whose tests answer otherwise at a NaN and at 0.01.
#![tactic(auto)]

ghost use Rattle.std.specs.Prelude.{◌≡◌};
ghost use Rattle.selmod.specs.Selmod.{selmod_of};

use layers::IonoState;

#[tactic(auto, unfolding(crate::specs::Selmod::selmod_of))]
pub fn selmod(s: IonoState) -> usize
    ensures { result ≡ selmod_of s }
{
    if s.kfx == 1 {
        return 0;
    }
    if s.kfx == 2 {
        return if s.fi[0] > s.fi[3] { 1 } else { 0 };
    }
    let delfi = s.fi[2] - s.fi[8];
    if scalar::abs(delfi) < 0.01 {
        return if s.fi[0] > s.fi[6] { 2 } else { 0 };
    }
    if delfi > 0.0 { 2 } else { 0 }
}
