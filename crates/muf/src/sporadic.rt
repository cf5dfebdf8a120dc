// Sporadic E: the row with the lowest MUF, of rows that are read as the caller says, and its line.
ghost use Rattle.std.specs.Prelude.{◌≡◌, ℕ, ◌<◌};
ghost use Rattle.muf.specs.Sporadic.{ray_of, taken_of, es_row_of, start_of, es_from, Reads, sigl4_of, es_found_of, es_line_of};
ghost use Rattle.muf.specs.SporadicSays.{RowSays, RowsSay};

use constants::RZ;
use layer_mufs::PathNumbers;
use layers::{EsParams, LayerMuf};
use refusal::Refusal;

// A row's ray: the tangent of its takeoff angle, and the secant at the layer.
#[derive(Clone, Copy, Debug, PartialEq)]
pub struct EsRay {
    pub tdel: f32,
    pub secp: f32,
}

// The row with the lowest MUF so far: its MUF, place, ray and numbers; and the hops of the last row
// worked out, whether it is this one or not.
#[derive(Clone, Copy, Debug, PartialEq)]
pub struct EsSearch {
    pub esmuf: f32,
    pub ksx: usize,
    pub ray: EsRay,
    pub hop: f32,
    pub row: EsParams,
}

// The row whose lower decile is written anew, and that decile.
#[derive(Clone, Copy, Debug, PartialEq)]
pub struct Rewrite {
    pub ksx: usize,
    pub lower: f32,
}

// The Es line, and what is written into its row if one controls.
#[derive(Clone, Copy, Debug, PartialEq)]
pub struct EsLine {
    pub line: LayerMuf,
    pub rewrite: Option<Rewrite>,
}

pub fn es_ray(hs: f32, hop: f32, gcd: f32) -> EsRay
    ensures { result ≡ ray_of hs hop gcd }
{
    let psi = 0.5 * gcd / hop;
    let tdel = (waves::cos(psi) - RZ / (RZ + hs)) / waves::sin(psi);
    let cdel = 1.0 / scalar::sqrt(1.0 + tdel * tdel);
    let sphe = RZ * cdel / (RZ + hs);
    let secp = hops::secant(sphe);
    EsRay { tdel, secp }
}

// Row k controls where its MUF is the lowest so far.
fn es_taken(a: EsSearch, k: usize, row: EsParams, ray: EsRay, hop: f32) -> EsSearch
    ensures { result ≡ taken_of a k row ray hop }
{
    let esd = row.fs[1] * ray.secp;
    if a.esmuf - esd > 0.0 {
        return EsSearch {
            esmuf: esd,
            ksx: k,
            ray,
            hop,
            row,
        };
    }
    EsSearch { hop, ..a }
}

// One row's turn: passed over where its median is at most 0.
pub fn es_row(a: EsSearch, k: usize, row: EsParams, c: PathNumbers) -> Result<EsSearch, Refusal>
    ensures value { result ≡ es_row_of a k row c }
    ensures row_says { RowSays result a k row c }
{
    if row.fs[1] <= 0.0 {
        return Ok(a);
    }
    let hop = hops::hop_count(c.gcdkm, c.amind, row.hs)?;
    let ray = es_ray(row.hs, hop, c.gcd);
    Ok(es_taken(a, k, row, ray, hop))
}

// No row controls yet.
// Stays: 1000 is where the Rust starts, and a row at or above it does not count; so in `nominal`.
pub fn es_start() -> EsSearch
    ensures { result ≡ start_of }
{
    EsSearch {
        esmuf: 1000.0,
        ksx: 0,
        ray: EsRay {
            tdel: 0.0,
            secp: 0.0,
        },
        hop: 0.0,
        row: EsParams {
            fs: [0.0; 3],
            hs: 0.0,
        },
    }
}

// The first n rows, in order, each as `row` reads it.
// Stays: a row's number is what its reader is asked by, and what the search keeps of it.
pub fn search<F: Fn(usize) -> EsParams>(
    row: F,
    n: usize,
    c: PathNumbers,
) -> Result<EsSearch, Refusal>
    requires { (k : ℕ) → k < n → F.pre row k }
    ensures value { (rows : ℕ → EsParams) → Reads (F.post row) n rows → result ≡ es_from rows c n 0 start_of }
    ensures rows_say { (rows : ℕ → EsParams) → Reads (F.post row) n rows → RowsSay result rows c n 0 start_of }
{
    let mut a = es_start();
    for k in 0..n {
        a = es_row(a, k, row(k), c)?;
    }
    Ok(a)
}

// The spread below the median, by where the lower decile stands to the regular E: over 0.1 MHz
// above it the decile's own, 0.1 MHz or more below it that of the upper side, and between a blend
// of the two.
fn lower_spread(xes: f32, sigb: f32, sigu4: f32) -> f32
    ensures { result ≡ sigl4_of xes sigb sigu4 }
{
    let zdif = 0.1;
    if xes + zdif < 0.0 {
        return sigb;
    }
    if xes - zdif < 0.0 {
        return sigb + ((xes + zdif) / (2.0 * zdif)) * (sigu4 - sigb);
    }
    sigu4
}

// The line of the controlling row; `fe` is the regular E critical frequency.
fn es_found(a: EsSearch, fe: f32) -> EsLine
    ensures { result ≡ es_found_of a fe }
{
    let EsParams { fs, hs } = a.row;
    let [fs0, fs1, fs2] = fs;
    let EsRay { tdel, secp } = a.ray;
    let sigu4 = (fs2 - fs1) / 1.28;
    let sigb = (fs1 - fs0) / 1.28;
    let sigz = (fs1 - 0.1) / 3.1;
    let xes = fe - fs0;
    let sigl4 = scalar::min(lower_spread(xes, sigb, sigu4), sigz);
    let lower = fs1 - 1.28 * sigl4;
    let del = arcs::atan(tdel);
    let line = layer_mufs::e_lines::line(
        sigl4 * secp,
        sigu4 * secp,
        del,
        hs,
        hs,
        fs1,
        a.hop,
        a.esmuf,
    );
    EsLine {
        line,
        rewrite: Some(Rewrite { ksx: a.ksx, lower }),
    }
}

pub fn es_line(a: EsSearch, fe: f32) -> EsLine
    ensures { result ≡ es_line_of a fe }
{
    if a.esmuf - 1000.0 >= 0.0 {
        let line = layer_mufs::e_lines::zero_line();
        return EsLine {
            line,
            rewrite: None,
        };
    }
    es_found(a, fe)
}
