// Which shape made each density of a slot's profile: of the five that `lecden` works out at a
// height, the one whose value is the largest.
ghost use Rattle.std.specs.Prelude.{◌≡◌, map, ◌<◌};
ghost use Rattle.profile.specs.Density.{fnd_of};
ghost use Rattle.profile.specs.Mark.{mark_number_of};
ghost use Rattle.profile.specs.Marks.{first_of, mark_of, unmarked, marks_of};

use crate::shape_densities::{Candidates, Curves};
use layers::IonoState;

// Stays: no mark is one of the cases, with a number and a word of its own, and no `Option`.
#[derive(Clone, Copy, Debug, PartialEq, Eq)]
pub enum Mark {
    // of a supplied profile, and of a slot that is not there
    None = 0,
    // the exponential tail from the D region up to E
    Tail = 1,
    // E's parabola
    E = 2,
    // the straight line between E and F2
    Valley = 3,
    // F1, a parabola or a line
    F1 = 4,
    // F2's parabola
    F2 = 5,
    // where the density is zero
    Gap = 6,
}

impl From<Mark> for u32 {
    ghost from_gives = { λ m n. n ≡ mark_number_of m };

    fn from(m: Mark) -> u32 {
        m as u32
    }
}

fn first(c: Candidates, density: f32) -> Mark
    ensures { result ≡ first_of c density }
{
    if c.fnd == density {
        return Mark::Tail;
    }
    if c.fne == density {
        return Mark::E;
    }
    if c.fnval == density {
        return Mark::Valley;
    }
    if c.fn1 == density {
        return Mark::F1;
    }
    Mark::F2
}

// Stays: the shapes c and the height h are no one thing: fifty heights are read with the same shapes.
fn mark_at(c: Curves, fnd: f32, h: f32) -> Mark
    requires { fnd ≡ fnd_of c h }
    ensures { result ≡ mark_of c h }
{
    let shapes = c.candidates(fnd, h);
    let density = shapes.largest();
    if density == 0.0 {
        return Mark::Gap;
    }
    first(shapes, density)
}

// Of no shape at all fifty heights.
pub fn no_marks() -> [Mark; 50]
    ensures { result ≡ unmarked }
{
    [Mark::None; 50]
}

fn marks_on(c: Curves, htr: [f32; 50]) -> [Mark; 50]
    ensures { result ≡ map (mark_of c) htr }
{
    let fnd = c.tails(htr);
    std::array::from_fn(|ih| mark_at(c, fnd[ih], htr[ih]))
}

// Slot k as `lecden` is to find it: of a slot that it has prepared F1 may be another shape.
pub fn marks_slot(s: IonoState, k: usize) -> [Mark; 50]
    requires { k < 3 }
    ensures { result ≡ marks_of s k }
{
    let Some(d) = crate::drawn(s, k) else {
        return no_marks();
    };
    marks_on(d.curves, d.htr)
}
