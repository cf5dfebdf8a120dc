// The nominal MUF: `nommuf` of the Rust, the MUF by the map's F2M3 where no profile is at hand. It
// takes the control points and their Es rows, no state and no slot.
#![tactic(auto)]

pub mod nominal_factors;

ghost use Rattle.std.specs.Prelude.{◌≡◌, ◌≤◌, length};
ghost use Rattle.nominal.specs.Nommuf.{ec_of, f2muf_of, hop_of, es_step, esmuf_of, nominal_of, path_taken, nommuf_of};

use layer_mufs::PathNumbers;
use layers::{EsParams, LayerParams};
use muf::MufHour;
use refusal::Refusal;

// The lowest critical frequency of E over the points.
fn lowest_e(points: &[LayerParams]) -> f32
    ensures { result ≡ ec_of points.now (length points.now) }
{
    let mut ec = 1000.0;
    for p in points {
        ec = crate::nominal_factors::lower(ec, p.fi[0]);
    }
    ec
}

// The lowest MUF of F2 over the points.
fn lowest_f2(points: &[LayerParams], f2m3: &[f32], flfc: f32) -> f32
    requires { length points.now ≤ length f2m3.now }
    ensures { result ≡ f2muf_of points.now f2m3.now flfc (length points.now) }
{
    let mut f2muf = 1000.0;
    for (p, x) in points.iter().zip(f2m3) {
        let fmuf = crate::nominal_factors::f2_at(p.fi[2], *x, flfc);
        f2muf = crate::nominal_factors::lower(f2muf, fmuf);
    }
    f2muf
}

fn hop(gcdkm: f32, hs: f32) -> f32
    ensures { result ≡ hop_of gcdkm hs }
{
    let dmax = 225.0 * scalar::sqrt(hs);
    gcdkm / dmax + 1.0
}

// The row's turn: at a probability of reflection of 0.5, so by its median.
// Stays: gcd and gcdkm, here and below, are the Rust's own two; the MUF's `PathNumbers` has an angle and a
// sunspot number besides, which `nommuf` is not given.
fn lower_es(esmuf: f32, row: EsParams, gcd: f32, gcdkm: f32) -> f32
    ensures { result ≡ es_step esmuf row gcd gcdkm }
{
    let fs = row.fs;
    let fs1 = fs[1];
    if fs1 <= 0.0 {
        return esmuf;
    }
    let hs = row.hs;
    let ray = muf::sporadic::es_ray(hs, hop(gcdkm, hs), gcd);
    crate::nominal_factors::lower(esmuf, fs1 * ray.secp)
}

// The lowest MUF of Es over the rows, 1000 where none reflects.
fn lowest_es(es: &[EsParams], gcd: f32, gcdkm: f32) -> f32
    ensures { result ≡ esmuf_of es.now gcd gcdkm (length es.now) }
{
    let mut esmuf = 1000.0;
    for row in es {
        esmuf = lower_es(esmuf, *row, gcd, gcdkm);
    }
    esmuf
}

// The hour of an accepted call: as many Es rows as points.
fn nominal(points: &[LayerParams], f2m3: &[f32], es: &[EsParams], gcd: f32, gcdkm: f32) -> MufHour
    requires f2m3s { length points.now ≤ length f2m3.now }
    requires rows { length es.now ≡ length points.now }
    ensures { result ≡ nominal_of points.now f2m3.now es.now (length points.now) gcd gcdkm }
{
    let arc = gcdkm * 0.0062137;
    let elfc = crate::nominal_factors::e_factor(arc);
    let flfc = crate::nominal_factors::f2_factor(arc);
    let ec = lowest_e(points);
    let emuf = 4.871 * ec * elfc;
    let f2muf = lowest_f2(points, f2m3, flfc);
    let allmuf = crate::nominal_factors::greater(emuf, f2muf);
    let fot = scalar::max(0.85 * f2muf, emuf);
    let hpf = scalar::max(1.15 * f2muf, emuf);
    let esmuf = lowest_es(es, gcd, gcdkm);
    // Stays: -1 is the Rust's, which has no F1 here.
    MufHour {
        emuf,
        f1muf: -1.0,
        f2muf,
        esmuf,
        allmuf,
        fot,
        hpf,
        ..muf::zero_hour()
    }
}

// The MUF's own test, at an amind that passes.
fn path_taken(gcd: f32, gcdkm: f32) -> bool
    ensures { result ≡ path_taken gcd gcdkm }
{
    let c = PathNumbers {
        gcd,
        gcdkm,
        amind: 0.0,
        ssn: 0.0,
    };
    muf::muf_domain::in_domain(c)
}

// The nominal hour of the first `count` points, their F2M3s and their Es rows; what stands past the
// count is not read.
// Stays: five places and a count, as the Rust's `fi`, `fs`, `hs` and `km`, here in records; f2m3, gcd and gcdkm are its own.
pub fn nommuf(
    points: [LayerParams; 5],
    f2m3: &[f32],
    es: [EsParams; 5],
    count: usize,
    gcd: f32,
    gcdkm: f32,
) -> Result<MufHour, Refusal>
    ensures { result ≡ nommuf_of points f2m3.now es count gcd gcdkm }
{
    if !crate::nominal_factors::counts_agree(count, f2m3.len()) {
        return Err(Refusal::PointCount);
    }
    if !path_taken(gcd, gcdkm) {
        return Err(Refusal::MufInput);
    }
    Ok(nominal(&points[..count], f2m3, &es[..count], gcd, gcdkm))
}
