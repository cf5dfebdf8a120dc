// Circuit MUFs over lent Es records; the stored output is what the paper and the Rust say.
#![tactic(auto)]

use layer_mufs::PathNumbers;
use layers::{EsParams, IonoState};
use muf::MufAnswer;
use refusal::Refusal;

fn say(x: f32) {
    io::write_all(1, b" ");
    io::print_hex(1, scalar::bits(x) as u64, 8);
}

fn say_row(e: EsParams) {
    let fs = e.fs;
    io::write_all(1, b"row");
    say(fs[0]);
    say(fs[1]);
    say(fs[2]);
    say(e.hs);
    io::write_all(1, b"\n");
}

fn say_rows(es: [EsParams; 5]) {
    for e in es {
        say_row(e);
    }
}

// The refusal's number or 0, the MUFs, the Es line's deciles and height, of +0 beside a refusal.
fn print(answer: Result<MufAnswer, Refusal>) {
    let number = refusal::answer_number(&answer);
    let hour = answer.map_or(muf::zero_hour(), |a| a.hour);
    let line = hour.layers[3];
    io::print_decimal(1, number as u64);
    say(hour.allmuf);
    say(hour.esmuf);
    say(line.yfot);
    say(line.yhpf);
    say(line.hpmuf);
    io::write_all(1, b"\n");
}

// The records are lent, and come back.
// Stays: f2d, clat and clck are the Rust's own parameters, side by side.
fn lend(
    s: IonoState,
    mut es: [EsParams; 5],
    f2d: &[f32],
    clat: &[f32],
    clck: &[f32],
    c: PathNumbers,
) {
    let answer = muf::muf_records::curmuf_records(s, &mut es, f2d, clat, clck, c);
    print(answer);
    say_rows(es);
}

fn row(fs0: f32, fs1: f32, fs2: f32, hs: f32) -> EsParams {
    let fs = [fs0, fs1, fs2];
    EsParams { fs, hs }
}

// Row 1 has the lowest MUF of the first three, and row 3 one that is lower still.
fn rows() -> [EsParams; 5] {
    [
        row(5.0, 6.0, 7.0, 90.0),
        row(1.0, 2.0, 3.5, 110.0),
        row(2.0, 4.0, 6.0, 100.0),
        row(0.5, 1.0, 1.5, 105.0),
        row(4.0, 5.0, 8.0, 95.0),
    ]
}

fn circuit(gcdkm: f32) -> PathNumbers {
    PathNumbers {
        gcd: gcdkm / constants::RZ,
        gcdkm,
        amind: 3.0,
        ssn: 60.0,
    }
}

fn run(name: &[u8], km: usize, es: [EsParams; 5], gcdkm: f32) {
    io::write_all(1, name);
    let f2d = [0.0f32; 576];
    let clat = [0.7f32; 5];
    let clck = [12.0f32; 5];
    match trial_slots::first_slots(km) {
        Ok(s) => lend(s, es, &f2d, &clat, &clck, circuit(gcdkm)),
        Err(r) => print(Err(r)),
    }
}

// A row past km is not read: the lowest median of all, at row 3, and a height that takes too many hops, at row 2.
fn main() {
    let es = rows();
    run(b"three points ", 3, es, 1600.0);
    run(b"one point ", 1, es, 1600.0);
    run(b"five points ", 5, es, 1600.0);
    run(b"too far ", 3, es, 40200.0);
    let mut none = es;
    none[0] = row(0.0, 0.0, 0.0, 90.0);
    none[1] = row(1.0, -2.0, 3.5, 110.0);
    none[2] = row(2.0, 0.0, 6.0, 100.0);
    run(b"no row reflects ", 3, none, 1600.0);
    let mut low = es;
    low[2] = row(2.0, 4.0, 6.0, 0.001);
    run(b"too many hops at row 2 ", 3, low, 1600.0);
    run(b"two points ", 2, low, 1600.0);
}
