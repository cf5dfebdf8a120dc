// A control point's layers, a layer's MUF line, and the state over all slots: by value where the
// Fortran shares COMMON blocks, made by `from_layers` and divided
// into slots by `ionset` (module `slots`).
#![tactic(auto)]

pub mod layer_rules;
pub mod slots;

ghost use Rattle.std.specs.Prelude.{◌≡◌, ◌<◌, IfOk};
ghost use Rattle.layers.specs.Slots.{slot_number_of};
ghost use Rattle.layers.specs.State.{profile_only, zero_state, with_iedp, with_ielect, with_exact};

use refusal::Refusal;

pub mod owners;

// A slot's number, of three; above 2 it is refused.
#[tactic(auto, unfolding(crate::specs::Slots::slot_number_of))]
pub fn slot_number(k: usize) -> Result<(), Refusal>
    ensures value { result ≡ slot_number_of k }
    ensures within { IfOk result (λ u. k < 3) }
{
    if k > 2 {
        return Err(Refusal::SlotNumber);
    }
    Ok(())
}

// The regular layers over a control point: in each list E first, then F1, then F2.
// Stays: fi, yi and hi side by side are the Rust's record, lent to callers by columns.
#[derive(Clone, Copy, Debug, PartialEq)]
pub struct LayerParams {
    // critical frequency in MHz; an F1 of 0 is no F1
    pub fi: [f32; 3],
    // semi-thickness of the parabola, in km
    pub yi: [f32; 3],
    // where the layer peaks, in km
    pub hi: [f32; 3],
}

// Sporadic E over a control point.
#[derive(Clone, Copy, Debug, PartialEq)]
pub struct EsParams {
    // its critical frequency in MHz: the median `fs[1]`, and the deciles below and above it
    pub fs: [f32; 3],
    // where it reflects, in km
    pub hs: f32,
}

// Whose profile a state has: nobody's, a slot's, or one supplied from outside.
// Stays: nobody is one of the cases, with a number of its own, and no `Option`.
#[derive(Clone, Copy, Debug, PartialEq, Eq)]
pub enum Owner {
    None,
    Slot(usize),
    Supplied,
}

// The tables are flat: `fi[3 * k + i]`, layer i of point or slot k, is the Rust's `fi[k][i]`.
// Stays: three tables side by side, and htr beside fnsq, are the Rust's state, lent to callers by columns; and places are written as
// 3 * k + i wherever the Rust writes its two indices, so that a reader finds them again.
#[derive(Clone, Copy, Debug, PartialEq)]
pub struct IonoState {
    pub fi: [f32; 15],
    pub yi: [f32; 15],
    pub hi: [f32; 15],
    // how many control points there are
    pub km: usize,
    // how many slots `ionset` made of them
    pub kfx: usize,
    // the profile: fifty heights in km
    pub htr: [f32; 50],
    // and at each the square of the plasma frequency, in MHz²
    pub fnsq: [f32; 50],
    // the rising mark, which only `lecden` sets; `gethp` tests the heights itself
    pub htr_rises: bool,
    // the slots' `FSECV`; where a slot has no F1 `lecden` leaves its number alone
    pub fsecv: [f32; 3],
    // below zero the profile alone gives heights, else tables and parabolas do where they can.
    // Stays: the Rust's number, of which only the sign is read.
    pub iedp: i32,
    // set where the profile came from outside, which makes `lecden` do nothing.
    // Stays: the Rust's, beside `owner`: while it is set the stored owner does not count, and must not
    // change.
    pub ielect: bool,
    // whose profile it is, as stored: `owners::owner_of` says what counts
    pub owner: Owner,
    // the Rust's `numerics.exact_virtual_height`: virtual heights as the integral evaluated, not by the rule of forty nodes
    pub exact_virtual_height: bool,
}

// A layer's MUF line.
#[derive(Clone, Copy, Debug, Default, PartialEq)]
pub struct LayerMuf {
    pub sigl: f32,
    pub sigu: f32,
    // the angle of takeoff, in degrees
    pub delmuf: f32,
    // where the ray is reflected: virtual and true height, in km
    pub hpmuf: f32,
    pub htmuf: f32,
    // the vertical frequency, in MHz, that stands for the oblique one
    pub fvmuf: f32,
    // the factor of its deviative loss, which is 0 in every line made
    pub afmuf: f32,
    // hops of the path
    pub nhopmf: i32,
    // the MUF: the median `ymuf`, and the deciles below and above it
    pub yfot: f32,
    pub ymuf: f32,
    pub yhpf: f32,
}

// Every number +0, nothing set.
// Stays: of a list `Default` promises each element and no equation with the list, which the proof would
// have to make of each; the zeros are shorter.
pub fn zero_state() -> IonoState
    ensures { result ≡ zero_state }
{
    IonoState {
        fi: [0.0; 15],
        yi: [0.0; 15],
        hi: [0.0; 15],
        km: 0,
        kfx: 0,
        htr: [0.0; 50],
        fnsq: [0.0; 50],
        htr_rises: false,
        fsecv: [0.0; 3],
        iedp: 0,
        ielect: false,
        owner: Owner::None,
        exact_virtual_height: false,
    }
}

// The shape that a circuit file asks for, or an INTEGRATE card.
// Stays: five setters, here, in `owners` and in crate `losses`, of one line each; one for all would have
// to be told the field.
pub fn with_iedp(mut s: IonoState, iedp: i32) -> IonoState
    ensures { result ≡ with_iedp s iedp }
{
    s.iedp = iedp;
    s
}

// Whether the profile alone gives heights.
pub fn profile_only(s: IonoState) -> bool
    ensures { result ≡ profile_only s }
{
    let iedp = s.iedp;
    iedp < 0
}

// Whether the profile is supplied from outside.
pub fn with_ielect(mut s: IonoState, ielect: bool) -> IonoState
    ensures { result ≡ with_ielect s ielect }
{
    s.ielect = ielect;
    s
}

// Whether virtual heights are worked out by the exact rule, where it can be.
pub fn with_exact(mut s: IonoState, exact: bool) -> IonoState
    ensures { result ≡ with_exact s exact }
{
    s.exact_virtual_height = exact;
    s
}
