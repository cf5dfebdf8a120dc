// The state that the points' layers make, `from_layers`, and its points assigned to slots, `ionset`.
ghost use Rattle.std.specs.Prelude.{◌≡◌, ◌<◌, ◌≤◌};
ghost use Rattle.layers.specs.FromLayers.{point_set, points_set, empty_of, from_layers_of};
ghost use Rattle.layers.specs.Ionset.{layer_from, two_slots, three_slots, assigned_of, f1_settled, f2_settled, slot_settled, slots_settled, ionset_of};

use crate::{IonoState, LayerParams};
use refusal::Refusal;

// `iedp` is -1, as the Fortran starts with: heights off the profile only.
fn empty(n: usize) -> IonoState
    ensures { result ≡ empty_of n }
{
    let mut s = crate::zero_state();
    s.km = n;
    s.iedp = -1;
    s
}

// Stays: s and k are the Rust's `state` and the number of one of its points, which here and at `layer_from` is asked to be below 5: the
// tables have five rows, and a type of the number would be made at each turn or call and opened for the index.
fn set_point(mut s: IonoState, k: usize, p: LayerParams) -> IonoState
    requires { k < 5 }
    ensures { result ≡ point_set s k p }
{
    s.fi = crate::layer_rules::set_row(s.fi, k, p.fi);
    s.yi = crate::layer_rules::set_row(s.yi, k, p.yi);
    s.hi = crate::layer_rules::set_row(s.hi, k, p.hi);
    s
}

// Stays: s and n, here and at `settle_slots`, are the Rust's state and the bound of its loops. Five places and a count, here and
// at `from_layers`, are what a circuit and the exports have: over a slice each caller would cut its five, and the definition, which
// reads point k of all that are handed in, would be one of the list cut off. That n is 5 at most is asked, since `from_layers` has
// just tested it, to refuse more.
fn set_points(s: IonoState, params: [LayerParams; 5], n: usize) -> IonoState
    requires { n ≤ 5 }
    ensures { result ≡ points_set s params n }
{
    let mut t = s;
    for (k, p) in params[..n].iter().enumerate() {
        t = set_point(t, k, *p);
    }
    t
}

// The state of the first `count` points; what stands past them is not read.
pub fn from_layers(params: [LayerParams; 5], count: usize) -> Result<IonoState, Refusal>
    ensures { result ≡ from_layers_of params count }
{
    if crate::layer_rules::count_taken(count) {
        return Ok(set_points(empty(count), params, count));
    }
    Err(Refusal::PointCount)
}

fn layer_from(mut s: IonoState, k: usize, p: usize, i: usize) -> IonoState
    requires { (k < 5) × (p < 5) × (i < 3) }
    ensures { result ≡ layer_from s k p i }
{
    let to = 3 * k + i;
    let from = 3 * p + i;
    s.fi[to] = s.fi[from];
    s.yi[to] = s.yi[from];
    s.hi[to] = s.hi[from];
    s
}

fn two_slots(mut s: IonoState) -> IonoState
    ensures { result ≡ two_slots s }
{
    s.kfx = 2;
    let s1 = layer_from(s, 0, 1, 2);
    let s2 = layer_from(s1, 1, 2, 0);
    layer_from(s2, 1, 2, 1)
}

// The three copies of two slots, and four more.
fn three_slots(s: IonoState) -> IonoState
    ensures { result ≡ three_slots s }
{
    let mut t = two_slots(s);
    t.kfx = 3;
    let s4 = layer_from(t, 1, 2, 2);
    let s5 = layer_from(s4, 2, 4, 0);
    let s6 = layer_from(s5, 2, 4, 1);
    layer_from(s6, 2, 3, 2)
}

fn assign(mut s: IonoState) -> IonoState
    ensures { result ≡ assigned_of s }
{
    if s.km <= 1 {
        s.kfx = 1;
        return s;
    }
    if s.km <= 3 {
        return two_slots(s);
    }
    three_slots(s)
}

fn settle_f1(mut s: IonoState, k: usize) -> IonoState
    requires { k < 3 }
    ensures { result ≡ f1_settled s k }
{
    let e = 3 * k;
    let f1 = 3 * k + 1;
    let f2 = 3 * k + 2;
    if s.fi[f1] > 0.0 {
        if crate::layer_rules::too_close(s.fi[e], s.fi[f1], s.fi[f2]) {
            s.fi[f1] = 0.0;
            s.yi[f1] = 0.0;
            s.hi[f1] = 0.0;
            return s;
        }
        let h = scalar::min(s.hi[f1], s.hi[f2]);
        s.hi[f1] = h;
        return s;
    }
    s
}

fn settle_f2(mut s: IonoState, k: usize) -> IonoState
    requires { k < 3 }
    ensures { result ≡ f2_settled s k }
{
    let e = 3 * k;
    let f2 = 3 * k + 2;
    let hdif = s.hi[f2] - s.hi[e] - 2.0;
    let y = scalar::min(s.yi[f2], hdif);
    s.yi[f2] = y;
    s
}

fn settle_slot(s: IonoState, k: usize) -> IonoState
    requires { k < 3 }
    ensures { result ≡ slot_settled s k }
{
    settle_f2(settle_f1(s, k), k)
}

fn settle_slots(s: IonoState, n: usize) -> IonoState
    requires { n ≤ 3 }
    ensures { result ≡ slots_settled s n }
{
    let mut t = s;
    // Stays: k is the slot's number, and no list is read.
    for k in 0..n {
        t = settle_slot(t, k);
    }
    t
}

// Of two slots or three, one at an end of the path has E and F1 from the point there and F2 from
// the next point inward. Then the layers of each slot are made to agree.
pub fn ionset(s: IonoState) -> Result<IonoState, Refusal>
    ensures { result ≡ ionset_of s }
{
    if crate::layer_rules::count_taken(s.km) {
        let t = assign(s);
        let n = t.kfx;
        return Ok(crate::owners::disown(settle_slots(t, n)));
    }
    Err(Refusal::PointCount)
}
