// `alosfv`: a factor of deviative loss for each of an ionogram's thirty rows. A layer's own rows
// have zero up to the true height at its MUF; the two rows of a cusp between layers have one at any
// height.
// Stays: s, k, ion and layers are the Rust's own parameters, and ion is read by each step of the factors,
// which are stored in it at the end. A row is two heights handed on apart, since the definitions speak of two
// heights, and an ionogram lent would be read as `ion.now` in each clause; beside them `hm` is of the layer's
// line, or of the row after a cusp, and `d` of the layer's shape. A loop over rows reads two columns at a row,
// writes a third and hands the constant on to the next row.
#![tactic(auto)]

ghost use Rattle.std.specs.Prelude.{◌≡◌, ◌+◌, ◌<◌, ◌≤◌};
ghost use Rattle.losses.specs.Alosfv.{decay_of, factor_of, e_loss, e_rows, cusp_loss, cusp_of, tail_loss, tail_rows, without_f1, with_f1, above_of, not_below_zero, not_below_zeros, with_afac, alosfv_of, alosfv_answer};

use layers::{IonoState, LayerMuf};
use reflectrix::Ionogram;
use refusal::Refusal;

// The factors so far, and the last constant worked out.
#[derive(Clone, Copy, Debug, PartialEq)]
pub struct Factors {
    pub cf: f32,
    pub afac: [f32; 30],
}

// One row's factor, and the last constant worked out up to it.
#[derive(Clone, Copy, Debug, PartialEq)]
pub struct Loss {
    pub cf: f32,
    pub a: f32,
}

// How the constant falls with the height: from the height hz, by the semi-thickness y.
#[derive(Clone, Copy, Debug, PartialEq)]
pub struct Decay {
    pub hz: f32,
    pub y: f32,
}

fn decayed(a: f32, d: Decay, htrue: f32) -> f32
    ensures { result ≡ decay_of a d htrue }
{
    let zexp = scalar::max(-2.0 * (htrue - d.hz) / d.y, -10.0);
    a * exponential::exp(zexp)
}

fn factor(c: f32, htrue: f32, hprim: f32, hm: f32) -> f32
    ensures { result ≡ factor_of c htrue hprim hm }
{
    c * (hprim - htrue - hm)
}

// Of a row's two heights. Stays: apart from `tail_loss`, as in the Rust: E's constant starts from 0.2 and not
// from 0.1, and one function would be handed that as well as a floor which means none.
fn e_loss(cf: f32, htrue: f32, hprim: f32, htmuf: f32, hm: f32, d: Decay) -> Loss
    ensures { result ≡ e_loss cf htrue hprim htmuf hm d }
{
    if htrue - htmuf <= 0.0 {
        return Loss { cf, a: 0.0 };
    }
    let c = decayed(0.2, d, htrue);
    Loss {
        cf: c,
        a: factor(c, htrue, hprim, hm),
    }
}

fn cusp_loss(a: f32, htrue: f32, hprim: f32, d: Decay, hm: f32) -> Loss
    ensures { result ≡ cusp_loss a htrue hprim d hm }
{
    let c = scalar::max(decayed(a, d, htrue), 0.05);
    Loss {
        cf: c,
        a: factor(c, htrue, hprim, hm),
    }
}

fn tail_loss(cf: f32, htrue: f32, hprim: f32, htmuf: f32, hm: f32, d: Decay, floor: f32) -> Loss
    ensures { result ≡ tail_loss cf htrue hprim htmuf hm d floor }
{
    if htrue - htmuf <= 0.0 {
        return Loss { cf, a: 0.0 };
    }
    let c = scalar::max(decayed(0.1, d, htrue), floor);
    Loss {
        cf: c,
        a: factor(c, htrue, hprim, hm),
    }
}

impl Factors {
    // Stays: apart from `tail_rows`: it calls `e_loss`, which takes no floor, and one function would be handed which of the two.
    fn e_rows(self, ion: Ionogram, l: LayerMuf, d: Decay) -> Factors
        ensures { result ≡ e_rows self ion l d 10 }
    {
        let mut g = self;
        for ih in 0..10 {
            let hm = l.hpmuf - l.htmuf;
            let r = e_loss(g.cf, ion.htrue[ih], ion.hprim[ih], l.htmuf, hm, d);
            g.cf = r.cf;
            g.afac[ih] = r.a;
        }
        g
    }

    // A cusp between two layers: two rows carry on the constant of the layer below, so that the loss
    // does not jump there, and the third has zero.
    fn cusp(mut self, ion: Ionogram, d: Decay, ih: usize) -> Factors
        requires { ih < 28 }
        ensures { result ≡ cusp_of self ion d ih }
    {
        let next = ih + 1;
        let after = ih + 2;
        let hm = ion.hprim[after] - ion.htrue[after];
        let a = self.cf;
        let r = cusp_loss(a, ion.htrue[ih], ion.hprim[ih], d, hm);
        let t = cusp_loss(a, ion.htrue[next], ion.hprim[next], d, hm);
        self.cf = t.cf;
        self.afac[ih] = r.a;
        self.afac[next] = t.a;
        self.afac[after] = 0.0;
        self
    }

    fn tail_rows(
        self,
        ion: Ionogram,
        l: LayerMuf,
        d: Decay,
        floor: f32,
        first: usize,
        n: usize,
    ) -> Factors
        requires { first + n ≤ 30 }
        ensures { result ≡ tail_rows self ion l d floor first n }
    {
        let mut g = self;
        for i in 0..n {
            let ih = first + i;
            let hm = l.hpmuf - l.htmuf;
            let r = tail_loss(g.cf, ion.htrue[ih], ion.hprim[ih], l.htmuf, hm, d, floor);
            g.cf = r.cf;
            g.afac[ih] = r.a;
        }
        g
    }

    // F2 straight after E. The constant of its rows stays at 0.5 or more, where that of cusps and of
    // other tails stays at 0.05 or more: so the Fortran has it.
    fn without_f1(self, ion: Ionogram, f2: LayerMuf, y2: f32) -> Factors
        ensures { result ≡ without_f1 self ion f2 y2 }
    {
        let d = Decay {
            hz: ion.htrue[10],
            y: y2,
        };
        self.cusp(ion, d, 10).tail_rows(ion, f2, d, 0.5, 13, 17)
    }

    // F1, then F2. The cusp between them takes the constant that was last worked out, as the Fortran's
    // variable does: that of an F1 row, or of the cusp under F1 if all F1 rows have zero.
    fn with_f1(self, ion: Ionogram, f1: LayerMuf, f2: LayerMuf, y1: f32, y2: f32) -> Factors
        ensures { result ≡ with_f1 self ion f1 f2 y1 y2 }
    {
        let d1 = Decay {
            hz: ion.htrue[10],
            y: y1,
        };
        let g = self.cusp(ion, d1, 10).tail_rows(ion, f1, d1, 0.05, 13, 7);
        let d2 = Decay {
            hz: ion.htrue[20],
            y: y2,
        };
        g.cusp(ion, d2, 20).tail_rows(ion, f2, d2, 0.05, 23, 7)
    }

    fn above(self, s: IonoState, k: usize, ion: Ionogram, layers: [LayerMuf; 4]) -> Factors
        requires { k < 3 }
        ensures { result ≡ above_of self s k ion layers }
    {
        let i1 = 3 * k + 1;
        let i2 = 3 * k + 2;
        let l2 = layers[2];
        if s.fi[i1] <= 0.0 {
            return self.without_f1(ion, l2, s.yi[i2]);
        }
        let l1 = layers[1];
        self.with_f1(ion, l1, l2, s.yi[i1], s.yi[i2])
    }
}

// Stays: not `scalar::max`, which answers otherwise at a NaN.
fn not_below_zero(a: f32) -> f32
    ensures { result ≡ not_below_zero a }
{
    if a < 0.0 { 0.0 } else { a }
}

fn not_below_zeros(mut l: [f32; 30]) -> [f32; 30]
    ensures { result ≡ not_below_zeros l 30 }
{
    for a in &mut l {
        *a = not_below_zero(*a);
    }
    l
}

fn with_afac(mut ion: Ionogram, afac: [f32; 30]) -> Ionogram
    ensures { result ≡ with_afac ion afac }
{
    ion.afac = afac;
    ion
}

// The factors of slot k, whose number is at most 2.
pub fn alosfv_slot(s: IonoState, k: usize, ion: Ionogram, layers: [LayerMuf; 4]) -> Ionogram
    requires { k < 3 }
    ensures { result ≡ alosfv_of s k ion layers }
{
    let e = 3 * k;
    let d = Decay {
        hz: s.hi[e] - s.yi[e],
        y: s.yi[e],
    };
    let afac = ion.afac;
    let start = Factors { cf: 0.0, afac };
    let l0 = layers[0];
    let f = start.e_rows(ion, l0, d).above(s, k, ion, layers);
    let g = f.afac;
    with_afac(ion, not_below_zeros(g))
}

pub fn alosfv(
    s: IonoState,
    k: usize,
    ion: Ionogram,
    layers: [LayerMuf; 4],
) -> Result<Ionogram, Refusal>
    ensures { result ≡ alosfv_answer s k ion layers }
{
    layers::slot_number(k)?;
    Ok(alosfv_slot(s, k, ion, layers))
}
