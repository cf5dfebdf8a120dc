// The heights of the thirty rows, and the segments of the true ones. With a negative `iedp` all are `gethp`'s. Otherwise the ten E
// rows are a table's; the others have true heights by `xlin`, and virtual ones by parabolas, or by
// `gethp` if there is an F1.
// Stays: the state, k and fv are handed from one function to the next, where the Rust has one in which
// they are at hand. Heights are tested once for all rows (`Tested`).
ghost use Rattle.std.specs.Prelude.{◌≡◌, ◌+◌, ◌*◌, ◌<◌, ◌++◌, Float, false, true, replicate};
ghost use Rattle.scalar.specs.F32.{◌>f◌, at};
ghost use Rattle.scalar.specs.Literals.{f0};
ghost use Rattle.heights.specs.Gethp.{gethp_of};
ghost use Rattle.profile.specs.Rising.{rises_of};
ghost use Rattle.readings.specs.Scan.{unsearched};
ghost use Rattle.sounding.specs.Rows;
ghost use Rattle.sounding.specs.Rows.{rows_of, true_by_profile, segment_by_profile, virtual_by_parabola, virtual_by, made, rows_by, rows_with};

use layers::IonoState;
use readings::Found;
use reflectrix::Ionogram;

const HTE: [f32; 10] = [
    70.00, 84.51, 88.52, 93.00, 94.26, 95.71, 97.68, 100.27, 104.22, 107.19,
];

const HPE: [f32; 10] = [
    70.00, 87.40, 94.00, 98.68, 100.20, 102.65, 107.15, 113.74, 125.25, 140.03,
];

// A state, and what the rising test says of its heights.
#[derive(Clone, Copy, Debug, PartialEq)]
pub struct Tested {
    pub s: IonoState,
    pub rises: bool,
    pub ghost told: { rises ≡ rises_of s.htr },
}

fn make(fv: [f32; 30], hprim: [f32; 30], htrue: [f32; 30], segment: [u32; 30]) -> Ionogram
    ensures { result ≡ made fv hprim htrue segment }
{
    Ionogram {
        fvert: fv,
        hprim,
        htrue,
        afac: [0.0; 30],
        segment,
    }
}

// All thirty rows off the profile.
fn by_profile(t: Tested, fv: [f32; 30]) -> Ionogram
    ensures { result ≡ rows_by true gethp_of t.s 0 fv }
{
    let p = heights::lent(&t.s, t.rises);
    let exact = t.s.exact_virtual_height;
    let mut hprim = [0.0; 30];
    let mut htrue = [0.0; 30];
    let mut segment = [0; 30];
    // Stays: three columns are written at a row; by `std::array::from_fn` the rows would be made first, and each column of them.
    for i in 0..30 {
        let h = heights::gethp_read(p, exact, fv[i]);
        hprim[i] = h.hp;
        htrue[i] = h.ht;
        segment[i] = h.segment;
    }
    make(fv, hprim, htrue, segment)
}

fn true_by_profile(s: IonoState, f: f32) -> Found
    ensures { (result.value ≡ true_by_profile s f) × (result.segment ≡ segment_by_profile s f) }
{
    readings::xlin::xlin(f * f, &s.fnsq, &s.htr)
}

// The column of true heights and that of their segments.
// Stays: side by side, as the columns of an ionogram.
#[derive(Clone, Copy, Debug, PartialEq)]
pub struct TrueColumns {
    pub htrue: [f32; 30],
    pub segment: [u32; 30],
}

fn true_rows(s: IonoState, fv: [f32; 30]) -> TrueColumns
    ensures htrue_value { result.htrue ≡ rows_of (λ f. true_by_profile s f) fv 10 (Rows.HTE ++ replicate 20 f0) 20 }
    ensures segment_value { result.segment ≡ rows_of (λ f. segment_by_profile s f) fv 10 (replicate 30 unsearched) 20 }
{
    let mut htrue = [0.0; 30];
    htrue[..10].copy_from_slice(&HTE);
    let mut segment = [50; 30];
    // Stays: two columns are written at a row, as in `by_profile`.
    for i in 0..20 {
        let h = true_by_profile(s, fv[10 + i]);
        htrue[10 + i] = h.value;
        segment[10 + i] = h.segment;
    }
    TrueColumns { htrue, segment }
}

fn virtual_by_parabola(s: IonoState, k: usize, f: f32) -> f32
    requires { k < 3 }
    ensures { result ≡ virtual_by_parabola s k f }
{
    let e = 3 * k;
    let f2 = 3 * k + 2;
    parabolas::height_over_e(s.fi[e], s.yi[e], s.fi[f2], s.yi[f2], s.hi[f2], f)
}

// Ten rows of a table, and the twenty after them, each by its frequency.
fn rows_from_ten<F: Fn(f32) -> f32>(start: [f32; 10], fv: [f32; 30], row: F) -> [f32; 30]
    requires { F.IsAlwaysCallable row }
    ensures { (g : Float → Float) → ((f h : Float) → F.post row f h → h ≡ g f) → result ≡ rows_of g fv 10 (start ++ replicate 20 f0) 20 }
{
    let mut rows = [0.0; 30];
    rows[..10].copy_from_slice(&start);
    // Stays: the definition stores row after row, as this loop does. Tried: of `rows[10..].iter_mut().zip(&fv[10..])` the invariant has
    // no name for what is written so far; by `from_fn`, with a test for the first ten, the proof reads the stores place by place, by
    // lemmas as long as itself, and did not close.
    for i in 0..20 {
        rows[10 + i] = row(fv[10 + i]);
    }
    rows
}

// With an F1 off the profile, since the closed form of E and F2 leaves it out.
fn virtual_rows(t: Tested, k: usize, fv: [f32; 30]) -> [f32; 30]
    requires { k < 3 }
    ensures { result ≡ rows_of (λ f. virtual_by (at t.s.fi (3 * k + 1) >f f0) gethp_of t.s k f) fv 10 (Rows.HPE ++ replicate 20 f0) 20 }
{
    if t.s.fi[3 * k + 1] > 0.0 {
        let p = heights::lent(&t.s, t.rises);
        let exact = t.s.exact_virtual_height;
        return rows_from_ten(HPE, fv, |f| heights::gethp_read(p, exact, f).hp);
    }
    rows_from_ten(HPE, fv, |f| virtual_by_parabola(t.s, k, f))
}

// Where `iedp` is not negative.
fn by_table(t: Tested, k: usize, fv: [f32; 30]) -> Ionogram
    requires { k < 3 }
    ensures { result ≡ rows_by false gethp_of t.s k fv }
{
    let columns = true_rows(t.s, fv);
    make(fv, virtual_rows(t, k, fv), columns.htrue, columns.segment)
}

pub fn rows(s: IonoState, k: usize, fv: [f32; 30]) -> Ionogram
    requires { k < 3 }
    ensures { result ≡ rows_with gethp_of s k fv }
{
    let t = Tested {
        s,
        rises: profile::rises_throughout(&s.htr),
    };
    if layers::profile_only(s) {
        return by_profile(t, fv);
    }
    by_table(t, k, fv)
}
