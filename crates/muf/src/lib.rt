// The circuit MUF of an hour: what is refused, the three regular layers, and the hour put together
// with the Es line.
#![tactic(auto)]

pub mod es_records;
pub mod muf_domain;
pub mod muf_records;
pub mod sporadic;

ghost use Rattle.std.specs.Prelude.{◌≡◌, ◌+◌, ◌*◌, ◌^◌, ◌<◌, length};
ghost use Rattle.heights.specs.Gethp.{gethp_of};
ghost use Rattle.muf.specs.Sporadic.{start_of, row_at, es_from};
ghost use Rattle.muf.specs.Hour.{mode_of, hour_of, zero_hour};
ghost use Rattle.muf.specs.Curmuf.{regular_with, found_muf_of, muf_at_slot_of, muf_from_search_of, flat_muf_of, es_after_of, curmuf_of, row_count_of};
ghost use Rattle.muf.specs.Says.{RegularSays, SlotSays, MufSays};

pub mod lent;

use crate::lent::Numbers;
use crate::sporadic::{EsSearch, Rewrite};
use layer_mufs::PathNumbers;
use layers::{EsParams, IonoState, LayerMuf};
use profile::slot_curves::Slot;
use refusal::Refusal;

// The lines of the regular layers.
#[derive(Clone, Copy, Debug, PartialEq)]
pub struct RegularLines {
    pub e: LayerMuf,
    pub f1: LayerMuf,
    pub f2: LayerMuf,
}

// The layer whose MUF is the circuit's, 1 to 3 for E, F1 and F2, and the takeoff angle of its line.
// Stays: `modmuf`, here and in an hour, where 0 says that no mode was worked out, is the Rust's number. An enum would be made in
// `by_layer` alone, matched in `muf_table` alone, and turned back into the number by the sheet, which prints it, and by the exports.
#[derive(Clone, Copy, Debug, PartialEq)]
pub struct Mode {
    pub angmuf: f32,
    pub modmuf: i32,
}

#[derive(Clone, Copy, Debug, PartialEq)]
pub struct MufHour {
    pub emuf: f32,
    pub f1muf: f32,
    pub f2muf: f32,
    pub esmuf: f32,
    // the highest MUF of the three regular layers: Es does not count
    pub allmuf: f32,
    pub fot: f32,
    pub hpf: f32,
    // the takeoff angle, in degrees, of the layer whose MUF that is
    pub angmuf: f32,
    pub modmuf: i32,
    // the regular layers' lines from E up, then that of Es
    pub layers: [LayerMuf; 4],
    // the controlling slot
    pub ks: usize,
}

// The hour, and the state as `lecden` of the controlling slot left it.
#[derive(Clone, Copy, Debug, PartialEq)]
pub struct MufAnswer {
    pub hour: MufHour,
    pub state: IonoState,
}

fn by_layer(m: RegularLines, allmuf: f32) -> Mode
    ensures { result ≡ mode_of m allmuf }
{
    let e = m.e;
    if e.ymuf - allmuf >= 0.0 {
        return Mode {
            angmuf: e.delmuf,
            modmuf: 1,
        };
    }
    let f1 = m.f1;
    if f1.ymuf - allmuf >= 0.0 {
        return Mode {
            angmuf: f1.delmuf,
            modmuf: 2,
        };
    }
    let f2 = m.f2;
    Mode {
        angmuf: f2.delmuf,
        modmuf: 3,
    }
}

fn hour(m: RegularLines, es: LayerMuf, ks: usize) -> MufHour
    ensures { result ≡ hour_of m es ks }
{
    let e = m.e;
    let f1 = m.f1;
    let f2 = m.f2;
    let fot = scalar::max(scalar::max(e.yfot, f1.yfot), f2.yfot);
    let allmuf = scalar::max(scalar::max(e.ymuf, f1.ymuf), f2.ymuf);
    let hpf = scalar::max(scalar::max(e.yhpf, f1.yhpf), f2.yhpf);
    let by = by_layer(m, allmuf);
    let layers = [e, f1, f2, es];
    MufHour {
        emuf: e.ymuf,
        f1muf: f1.ymuf,
        f2muf: f2.ymuf,
        esmuf: es.ymuf,
        allmuf,
        fot,
        hpf,
        angmuf: by.angmuf,
        modmuf: by.modmuf,
        layers,
        ks,
    }
}

// Stays: as `layers::zero_state`, since an hour has a list of lines.
pub fn zero_hour() -> MufHour
    ensures { result ≡ zero_hour }
{
    let z = layer_mufs::e_lines::zero_line();
    let layers = [z, z, z, z];
    MufHour {
        emuf: 0.0,
        f1muf: 0.0,
        f2muf: 0.0,
        esmuf: 0.0,
        allmuf: 0.0,
        fot: 0.0,
        hpf: 0.0,
        angmuf: 0.0,
        modmuf: 0,
        layers,
        ks: 0,
    }
}

// E, then F2, then F1.
fn regular_lines(
    t: IonoState,
    l: Slot,
    f2d: &[f32],
    clat: f32,
    clck: f32,
    c: PathNumbers,
) -> Result<RegularLines, Refusal>
    ensures value { result ≡ regular_with gethp_of t l f2d.now clat clck c }
    ensures regular_says { RegularSays result t l f2d.now clat clck c }
{
    let x = layer_mufs::tangents::tangent_frequencies(l, c.gcdkm);
    let e = layer_mufs::e_lines::e_line(&t, x.fxe, c.gcdkm, c.amind)?;
    let f2 = layer_mufs::f2_line(&t, l, x.f2, f2d, clat, clck, c)?;
    let f1 = layer_mufs::f1_line(&t, l, x.fx1, e, c)?;
    Ok(RegularLines { e, f1, f2 })
}

// What is written into which row, once the hour is known.
#[derive(Clone, Copy, Debug, PartialEq)]
pub struct AnswerAndRow {
    pub answer: MufAnswer,
    pub rewrite: Option<Rewrite>,
}

// The hour, after the search of the Es rows.
fn finish(t: IonoState, fe: f32, m: RegularLines, ks: usize, a: EsSearch) -> AnswerAndRow
    ensures { result ≡ found_muf_of a t fe m ks }
{
    let x = crate::sporadic::es_line(a, fe);
    let hour = hour(m, x.line, ks);
    AnswerAndRow {
        answer: MufAnswer { hour, state: t },
        rewrite: x.rewrite,
    }
}

// All that an accepted call works out, the search of the Es rows given; the lists reach to slot ks.
pub fn muf_at_slot(
    s: IonoState,
    ks: usize,
    found: Result<EsSearch, Refusal>,
    f2d: &[f32],
    clat: f32,
    clck: f32,
    c: PathNumbers,
) -> Result<AnswerAndRow, Refusal>
    requires { ks < 3 }
    ensures value { result ≡ muf_at_slot_of s ks found f2d.now clat clck c }
    ensures slot_says { SlotSays result s ks found f2d.now clat clck c }
{
    let t = profile::lecden_slot(s, ks);
    let l = profile::slot_at(t, ks);
    let m = regular_lines(t, l, f2d, clat, clck, c)?;
    let a = found?;
    Ok(finish(t, l.fi0, m, ks, a))
}

// The whole call but for the Es rows, flat or records: their search is given, of whatever rows it
// is, and the row to be rewritten is named. Where the call is refused before them it is not used.
pub fn muf_from_search<L: Numbers>(
    s: IonoState,
    found: Result<EsSearch, Refusal>,
    f2d: &[f32],
    clat: L,
    clck: L,
    c: PathNumbers,
) -> Result<AnswerAndRow, Refusal>
    ensures { result ≡ muf_from_search_of s found f2d.now (L.floats clat) (L.floats clck) c }
{
    if !crate::muf_domain::in_domain(c) {
        return Err(Refusal::MufInput);
    }
    let ks = layer_mufs::controlling_slot::controlling(s);
    if !crate::muf_domain::lists_reach(ks, f2d.len(), clat.count(), clck.count()) {
        return Err(Refusal::MufLists);
    }
    muf_at_slot(s, ks, found, f2d, clat.number(ks), clck.number(ks), c)
}

// Row k of numbers that stand four a row.
pub fn flat_row<L: Numbers>(es: L, k: usize) -> EsParams
    requires there { 4 * k + 3 < length (L.floats es) }
    requires fits { 4 * k + 3 < 2 ^ 64 }
    ensures { result ≡ row_at (L.floats es) k }
{
    EsParams {
        fs: [es.number(4 * k), es.number(4 * k + 1), es.number(4 * k + 2)],
        hs: es.number(4 * k + 3),
    }
}

// The whole call but for the row that it rewrites; `es` holds four numbers a row. A caller may lend any number of rows, so a call that
// is refused for its numbers or its lists reads none.
// Stays: the two tests are those of `muf_from_search`, which is given a search that was made before them.
pub fn flat<L: Numbers>(
    s: IonoState,
    es: L,
    f2d: &[f32],
    clat: L,
    clck: L,
    c: PathNumbers,
) -> Result<AnswerAndRow, Refusal>
    ensures { result ≡ flat_muf_of s (L.floats es) f2d.now (L.floats clat) (L.floats clck) c }
{
    if !crate::muf_domain::in_domain(c) {
        return Err(Refusal::MufInput);
    }
    let ks = layer_mufs::controlling_slot::controlling(s);
    if !crate::muf_domain::lists_reach(ks, f2d.len(), clat.count(), clck.count()) {
        return Err(Refusal::MufLists);
    }
    let n = crate::muf_domain::row_count(es.count(), s.km);
    let found = crate::sporadic::search(|k| flat_row(es, k), n, c);
    muf_at_slot(s, ks, found, f2d, clat.number(ks), clck.number(ks), c)
}

// The MUF hour; `es` holds four numbers a row: three of `fs`, then `hs`. Only the controlling row's
// lower decile is rewritten.
// Stays: s, es, f2d, clat and clck are the Rust's own parameters, in its order; es is flat, four numbers a row, as words are, and the
// Rust's records are module `muf_records`; c is its last four.
pub fn curmuf(
    s: IonoState,
    es: &mut [f32],
    f2d: &[f32],
    clat: &[f32],
    clck: &[f32],
    c: PathNumbers,
) -> Result<MufAnswer, Refusal>
    ensures value { result ≡ curmuf_of s es.old f2d.now clat.now clck.now c }
    ensures es_after { es.new ≡ es_after_of s es.old f2d.now clat.now clck.now c }
    ensures muf_says { MufSays result s (es_from (row_at es.old) c (row_count_of (length es.old) s.km) 0 start_of) f2d.now clat.now clck.now c }
{
    let d = flat(s, &*es, f2d, clat, clck, c)?;
    if let Some(w) = d.rewrite {
        es[4 * w.ksx] = w.lower;
    }
    Ok(d.answer)
}
