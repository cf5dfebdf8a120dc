// The paper's unmarked trials, run, and with them the edges of some refusals and a slot prepared
// twice; the stored output has the paper's answers. The marked trials are rows of the table of crate
// `starred`.
// Stays: parameters are those of the Rust that is tried, and two ionograms are compared row by row.
#![tactic(auto)]

ghost use Rattle.std.specs.Prelude.{◌<◌, ◌≤◌};

use layer_mufs::PathNumbers;
use layers::{IonoState, LayerMuf};
use reflectrix::Ionogram;
use refusal::Refusal;
use slot_sheet::SlotSheet;

fn say(what: &[u8], n: u64) {
    io::write_all(1, what);
    io::print_decimal(1, n);
    io::write_all(1, b"\n");
}

fn say_bits(what: &[u8], x: f32) {
    io::write_all(1, what);
    io::print_hex(1, scalar::bits(x) as u64, 8);
    io::write_all(1, b"\n");
}

// 0, or the number of the refusal.
fn say_refused<T>(what: &[u8], answer: &Result<T, Refusal>) {
    say(what, u64::from(refusal::answer_number(answer)));
}

fn no_layers() -> [LayerMuf; 4] {
    [layer_mufs::e_lines::zero_line(); 4]
}

fn sheet_of(s: IonoState, nang: usize, cells: &mut [i32]) -> Result<SlotSheet, Refusal> {
    slot_sheet::slot_sheet(s, 0, nang, no_layers(), cells)
}

// A sheet of so many angles into the first n cells.
fn room(what: &[u8], s: IonoState, nang: usize, n: usize)
    requires { n ≤ 1230 }
{
    let mut cells = [0i32; 1230];
    say_refused(what, &sheet_of(s, nang, &mut cells[..n]));
}

// Thirty cells an angle: 40 angles take 1,200.
fn rooms(s: IonoState) {
    room(b"40 angles, 1200 cells: ", s, 40, 1200);
    room(b"40 angles, 1199 cells: ", s, 40, 1199);
    room(b"41 angles, 1230 cells: ", s, 41, 1230);
    room(b"no angle, no cell: ", s, 0, 0);
}

// 4 itself answers, the next f32 is refused; a NaN is no refusal.
fn angles() {
    let four = scalar::number(0x4080_0000);
    let next = scalar::number(0x4080_0001);
    let nan = scalar::number(0x7fc0_0000);
    say_refused(b"sin 4: ", &waves::wave_answers::sin_or_refuse(four));
    say_refused(b"sin above 4: ", &waves::wave_answers::sin_or_refuse(next));
    say_refused(b"sin -4: ", &waves::wave_answers::sin_or_refuse(-four));
    say_refused(
        b"sin below -4: ",
        &waves::wave_answers::sin_or_refuse(-next),
    );
    say_refused(b"sin NaN: ", &waves::wave_answers::sin_or_refuse(nan));
    say_refused(b"cos 4: ", &waves::wave_answers::cos_or_refuse(four));
    say_refused(b"cos above 4: ", &waves::wave_answers::cos_or_refuse(next));
    say_bits(
        b"sine of 4: ",
        waves::wave_answers::sin_or_refuse(four).unwrap_or(0.0),
    );
    say_bits(
        b"beside its refusal: ",
        waves::wave_answers::sin_or_refuse(next).unwrap_or(0.0),
    );
}

// A layer at 300 km reaches 1,500 km in one hop; no number of hops at the ground does.
fn hop_counts() {
    let one = hops::hop_count(1500.0, 3.0, 300.0);
    say_refused(b"hops at 300 km: ", &one);
    say_bits(b"their count: ", one.unwrap_or(0.0));
    say_refused(b"hops at the ground: ", &hops::hop_count(1500.0, 0.0, 0.0));
}

fn same(a: f32, b: f32) -> bool {
    scalar::bits(a) == scalar::bits(b)
}

// Stays: two profiles that are compared, no two columns of one.
fn differing_densities(a: &[f32; 50], b: &[f32; 50]) -> usize {
    a.iter().zip(b.iter()).filter(|x| !same(*x.0, *x.1)).count()
}

fn same_row(a: &Ionogram, b: &Ionogram, i: usize) -> bool
    requires { i < 30 }
{
    same(a.fvert[i], b.fvert[i])
        && same(a.hprim[i], b.hprim[i])
        && same(a.htrue[i], b.htrue[i])
        && same(a.afac[i], b.afac[i])
        && a.segment[i] == b.segment[i]
}

fn differing_rows(a: &Ionogram, b: &Ionogram) -> usize {
    (0..30).filter(|i| !same_row(a, b, *i)).count()
}

// Preparing a slot twice is not preparing it once: why a sheet starts from the slots as `ionset` left them.
fn prepared_twice(s: IonoState) -> Result<(), Refusal> {
    let once = profile::lecden_slot(s, 0);
    let twice = profile::lecden_slot(once, 0);
    say(
        b"densities changed: ",
        differing_densities(&once.fnsq, &twice.fnsq) as u64,
    );
    say_bits(b"fsecv once: ", once.fsecv[0]);
    say_bits(b"fsecv twice: ", twice.fsecv[0]);
    let mut cells = [0i32; 30];
    let fresh = sheet_of(s, 1, &mut cells)?;
    let again = sheet_of(once, 1, &mut cells)?;
    say(
        b"rows changed: ",
        differing_rows(&fresh.ion, &again.ion) as u64,
    );
    Ok(())
}

// One to five points.
fn counts() {
    say_refused(
        b"no point: ",
        &layers::slots::from_layers(trial_slots::points(), 0),
    );
    say_refused(
        b"six points: ",
        &layers::slots::from_layers(trial_slots::points(), 6),
    );
    say_refused(
        b"slots of no point: ",
        &layers::slots::ionset(layers::zero_state()),
    );
}

// Slots are 0, 1 and 2; the slot number is looked at before the angles.
fn slot_numbers(s: IonoState) {
    say_refused(b"lecden of slot 3: ", &profile::lecden(s, 3));
    let mut cells = [0i32; 30];
    say_refused(
        b"sheet of slot 3, 41 angles: ",
        &slot_sheet::slot_sheet(s, 3, 41, no_layers(), &mut cells),
    );
}

// The MUF of the point's hour, 1,500 km, with so many deciles, all zero, so long a path in radians
// and so many clocks.
fn muf_of(what: &[u8], s: IonoState, deciles: usize, gcd: f32, clocks: usize)
    requires { (deciles ≤ 577) × (clocks ≤ 1) }
{
    let path = PathNumbers {
        gcd,
        gcdkm: 1500.0,
        amind: 3.0,
        ssn: 80.0,
    };
    let mut es = [2.0, 3.0, 4.0, 110.0];
    let f2d = [0.0; 577];
    let clat = [0.5];
    let clck = [12.0];
    say_refused(
        what,
        &muf::curmuf(s, &mut es, &f2d[..deciles], &clat, &clck[..clocks], path),
    );
}

// The domain comes before the lists.
fn mufs(s: IonoState) {
    muf_of(b"576 deciles, a clock: ", s, 576, 0.235, 1);
    muf_of(b"575 deciles: ", s, 575, 0.235, 1);
    muf_of(b"577 deciles: ", s, 577, 0.235, 1);
    muf_of(b"no clock: ", s, 576, 0.235, 0);
    muf_of(b"575 deciles, gcd 6.4: ", s, 575, 6.4, 1);
}

fn trials() -> Result<(), Refusal> {
    let s = trial_slots::first_slots(1)?;
    rooms(s);
    counts();
    slot_numbers(s);
    mufs(s);
    angles();
    hop_counts();
    prepared_twice(s)
}

fn main() {
    if let Err(r) = trials() {
        say(b"refused: ", u64::from(u32::from(r)));
    }
}
