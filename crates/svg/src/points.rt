// Points in the frame of a panel. A unit is a tenth of a pixel.
ghost use Rattle.std.specs.Prelude.{◌≡◌};
ghost use Rattle.svg.specs.Points.{units_of, point_drawn_of};

// A point of the frame, by its units from the left and from the top of the panel.
#[derive(Clone, Copy, Debug, PartialEq, Eq)]
pub struct Place {
    pub x: u64,
    pub y: u64,
}

// A number's place on an axis with k units for each one of it; 2^32 where it is below zero, no number or
// too far out.
// Stays: 2^32 is past the end of either axis, so that one test turns all of these away.
#[tactic(auto, unfolding(crate::specs::Points::units_of))]
fn units(v: f32, k: u32) -> u64
    ensures { result ≡ units_of k v }
{
    if v < 0.0 {
        return 0x1_0000_0000;
    }
    figures::times(v, k)
}

// The point of a frequency in MHz and a height in km, where it is in the frame.
#[tactic(auto, unfolding(crate::specs::Points::point_drawn_of))]
pub fn point_drawn(f: f32, h: f32) -> Option<Place>
    ensures { result ≡ point_drawn_of f h }
{
    let x = units(f, 190);
    let y = units(h, 5);
    if x > 5700 || y > 3000 {
        return None;
    }
    Some(Place {
        x: 700 + x,
        y: 3500 - y,
    })
}
