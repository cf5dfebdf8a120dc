// Heights of a vertical frequency off the profile, by a Gauss rule or the exact one: `gethp`.
#![tactic(auto)]

pub mod forty_reads;
pub mod height_integral;
pub mod integrands;
pub mod roots;

ghost use Rattle.std.specs.Prelude.{false, ◌&&◌, ◌≡◌, ℕ, ◌<◌, T};
ghost use Rattle.scalar.specs.F32.{◌≤f◌, ◌>f◌, at};
ghost use Rattle.scalar.specs.Literals.{f0, f0_9999};
ghost use Rattle.heights.specs.Walk.{EachF32};
ghost use Rattle.heights.specs.ReadsByWalk.{flat, ysq_read_by, cursor_read_by};
ghost use Rattle.heights.specs.Gethp.{hp_of, heights_by, gethp_of, gethp_scan_of};
ghost use Rattle.heights.specs.GethpWalk.{gethp_read_of};

use crate::forty_reads::gethp_densities;
use crate::height_integral::virtual_height_exact;
use layers::IonoState;
use profile::rises_throughout;
use readings::{Profile, profile_interpolate};

#[derive(Clone, Copy, Debug, PartialEq)]
pub struct Heights {
    // virtual and true, in km
    pub hp: f32,
    pub ht: f32,
    // the walk's cursor after its last read; 0 where no walk ran
    // Stays: a number, since the paper gives 0 there.
    pub cursor: usize,
    // the segment on which the true height was found; 50 where nothing was sought
    // Stays: the paper numbers the segments 0 to 49, and says 50 where nothing is sought.
    pub segment: u32,
}

// The weight of each of the twenty abscissas, and of its negative.
static WT: [f32; 20] = [
    0.0775059480,
    0.0770398182,
    0.0761103619,
    0.0747231691,
    0.0728865824,
    0.0706116474,
    0.0679120458,
    0.0648040135,
    0.0613062425,
    0.0574397691,
    0.0532278470,
    0.0486958076,
    0.0438709082,
    0.0387821680,
    0.0334601953,
    0.0279370070,
    0.0222458492,
    0.0164210584,
    0.0104982845,
    0.0045212771,
];

// From `ig` 0 up, as in the Rust: another order of the sum would be rounded otherwise.
fn quadrature(ysq: [f32; 40]) -> f32
    requires { (k : ℕ) → k < 40 → T (at ysq k ≤f f0_9999) }
    ensures { result ≡ hp_of (flat ysq) 20 }
{
    let mup = crate::integrands::integrands(ysq);
    let mut hp = 0.0;
    // Stays: the loop is the Rust's, over `ig`. `WT.iter().zip(mup.chunks_exact(2))` keeps the order too, and is no plainer: the two
    // integrands would be a list of two, of which it has to be shown that it is of two; the library has no lemma on chunks in a zip.
    // Over `WT.iter().enumerate()` the index would stay, for `mup`.
    for ig in 0..20 {
        let lower = 2 * ig;
        let upper = 2 * ig + 1;
        let w = WT[ig];
        hp = hp + w * (mup[lower] + mup[upper]);
    }
    hp
}

// By the sum over forty densities, read by a walk or by scans. `ht` is the reflecting height less the lowest one.
fn by_densities(p: Profile, ht: f32, fr: f32, segment: u32) -> Heights
    ensures { result ≡ heights_by false p.entry.htr.now p.entry.fnsq.now fr ht segment (ysq_read_by p.entry.rises p.entry.htr.now p.entry.fnsq.now ht fr) (cursor_read_by p.entry.rises p.entry.htr.now p.entry.fnsq.now ht) }
{
    let h0 = p.htr[0];
    let hrmz = ht * 0.5 * 1.0;
    let d = gethp_densities(p, ht, fr);
    let hp = quadrature(d.ysq);
    Heights {
        hp: h0 + hrmz * hp,
        ht: h0 + ht,
        cursor: d.cursor,
        segment,
    }
}

// Whether the exact rule is used: it is asked for, and the reflecting height is above the lowest one.
// Stays: `exact` is the Rust's `numerics.exact_virtual_height`, a mark of its state.
fn rule_used(exact: bool, ht: f32) -> bool
    ensures { result ≡ (exact && (ht >f f0)) }
{
    exact && ht > 0.0
}

// `gethp` with the exact rule where it is asked for and can be used, else with the densities read by a
// walk where the profile is said to rise, or by scans. For a caller that asks for many frequencies on
// one profile.
pub fn gethp_read(p: Profile, exact: bool, fxx: f32) -> Heights
    ensures { result ≡ gethp_read_of exact p.entry.rises p.entry.htr.now p.entry.fnsq.now fxx }
{
    let Profile { htr, fnsq, .. } = p;
    let fr = fxx * fxx;
    let h0 = htr[0];
    if fr - fnsq[0] <= 0.0 {
        return Heights {
            hp: h0,
            ht: h0,
            cursor: 0,
            segment: 50,
        };
    }
    let found = profile_interpolate(fnsq, htr, fr);
    let top = found.value;
    let segment = found.segment;
    let ht = top - h0;
    if rule_used(exact, ht) {
        let rise = virtual_height_exact(p, fr, top);
        return Heights {
            hp: h0 + rise,
            ht: h0 + ht,
            // no walk
            cursor: 0,
            segment,
        };
    }
    by_densities(p, ht, fr, segment)
}

// A state's profile, lent; `rises` is what a test says of its heights.
pub fn lent(s: &IonoState, rises: bool) -> Profile<'_>
    ensures htr { result.htr.now ≡ s.now.htr }
    ensures fnsq { result.fnsq.now ≡ s.now.fnsq }
    ensures rises { result.rises ≡ rises }
{
    Profile {
        htr: &s.htr,
        fnsq: &s.fnsq,
        rises,
    }
}

// The heights of the vertical frequency `fxx`, densities read by a walk or by scans: `gethp` where `rises` is what the rising test says of the state's heights, for a caller that asks for many frequencies on one profile.
// Stays: `s` and `fxx` are the Rust's parameters, and `rises` goes beside `s` where the test is made once.
pub fn gethp_rising(s: &IonoState, rises: bool, fxx: f32) -> Heights
    ensures { result ≡ gethp_read_of s.now.exact_virtual_height rises s.now.htr s.now.fnsq fxx }
{
    gethp_read(lent(s, rises), s.exact_virtual_height, fxx)
}

// That the format holds each height, which is known of an array by value. No copy of it is made.
fn held(htr: [f32; 50])
    ensures { EachF32 htr }
{}

// The virtual and the true height of the vertical frequency `fxx`. The heights are tested here: the state's rising mark is not read.
pub fn gethp(s: &IonoState, fxx: f32) -> Heights
    ensures { result ≡ gethp_of s.now fxx }
{
    held(s.htr);
    gethp_rising(s, rises_throughout(&s.htr), fxx)
}

// The same by forty scans on every profile where densities are read.
pub fn gethp_scan(s: &IonoState, fxx: f32) -> Heights
    ensures { result ≡ gethp_scan_of s.now fxx }
{
    gethp_rising(s, false, fxx)
}
