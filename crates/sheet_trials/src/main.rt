// What `sheet` prints of files of one to five points and of both shapes, of every refusal that a file can
// meet, of NaN, and at the edges of the `call` field. The stored output is what the paper and the Rust say.
// Stays: a file f and its record n, since a trial changes one record of a file at a time. That n is below 64, or 65 for a
// kind alone, is asked: a checked place is no plainer, and would print another trial where the number is wrong.
#![tactic(auto)]

ghost use Rattle.std.specs.Prelude.{◌+◌, ◌<◌, ◌≤◌};

use sheet_text::INPUT;

// The five points: fi, yi, hi and Es fs, three each, hs, clat, clck.
const POINTS: [[f32; 15]; 5] = [
    [
        3.0, 4.5, 8.25, 20.0, 40.0, 80.0, 110.0, 190.0, 290.0, 1.5, 3.0, 5.0, 110.0, 0.75, 12.0,
    ],
    [
        3.125, 4.75, 8.75, 20.0, 42.0, 85.0, 110.0, 195.0, 300.0, 1.25, 2.75, 4.75, 110.0, 0.8125,
        12.5,
    ],
    // F1 too close to E
    [
        3.25, 3.375, 9.25, 20.0, 44.0, 90.0, 110.0, 200.0, 310.0, 1.0, 2.5, 4.5, 105.0, 0.875, 13.0,
    ],
    // no F1, no Es
    [
        2.75, 0.0, 7.5, 20.0, 0.0, 75.0, 110.0, 0.0, 280.0, 0.5, 0.0, 0.0, 110.0, 0.9375, 13.5,
    ],
    [
        2.5, 4.0, 7.0, 20.0, 38.0, 70.0, 112.0, 185.0, 270.0, 1.75, 3.25, 5.25, 100.0, 1.0, 14.0,
    ],
];

// A record of kind 3.
const DECILES: [f32; 15] = [
    0.85, 0.85, 0.85, 0.85, 0.85, 0.85, 0.85, 0.85, 0.85, 0.85, 0.85, 0.85, 0.0, 0.0, 0.0,
];

// A NaN with a payload.
const NAN: u32 = 0x7fc0_0001;

// A number's bits at byte `at`, the lowest first.
fn set_word(f: &mut [u8; INPUT], at: usize, n: u32)
    requires { at + 3 < 4160 }
{
    f[at..at + 4].copy_from_slice(&n.to_le_bytes());
}

// Record n has this kind and next index.
// Stays: the kind is a byte, since a trial may write any; f and n, here and below, are the file and which of its records is changed,
// and the file is also changed at a byte, with no record named.
fn set_record(f: &mut [u8; INPUT], n: usize, kind: u8, next: u8)
    requires { n < 65 }
{
    f[64 * n] = kind;
    f[64 * n + 2] = next;
}

// And these numbers.
fn set_numbers(f: &mut [u8; INPUT], n: usize, kind: u8, next: u8, numbers: &[f32; 15])
    requires { n < 64 }
{
    set_record(f, n, kind, next);
    for (i, x) in numbers.iter().enumerate() {
        set_word(f, 64 * n + 4 + 4 * i, scalar::bits(*x));
    }
}

// Record 0 of a path of 3185 km.
fn head(km: u8, shape: u8) -> [u8; INPUT] {
    let mut f = [0; INPUT];
    set_record(&mut f, 0, 1, 1);
    f[4] = km;
    f[5] = shape;
    set_word(&mut f, 8, scalar::bits(0.5));
    set_word(&mut f, 12, scalar::bits(3185.0));
    set_word(&mut f, 16, scalar::bits(3.0));
    set_word(&mut f, 20, scalar::bits(100.0));
    f
}

// A chain of the first km of the five points.
fn points(km: u8, shape: u8) -> [u8; INPUT] {
    let mut f = head(km, shape);
    for (i, p) in POINTS.iter().enumerate() {
        let n = i + 1;
        let next = if n < usize::from(km) { n + 1 } else { 0 };
        set_numbers(&mut f, n, 2, next as u8, p);
    }
    f
}

// The file of one point, with another word at byte `at`.
fn changed(at: usize, n: u32) -> [u8; INPUT]
    requires { at + 3 < 4160 }
{
    let mut f = points(1, 0);
    set_word(&mut f, at, n);
    f
}

// That file with the point's three frequencies replaced.
fn frequencies(e: u32, f1: u32, f2: u32) -> [u8; INPUT] {
    let mut f = points(1, 0);
    set_word(&mut f, 68, e);
    set_word(&mut f, 72, f1);
    set_word(&mut f, 76, f2);
    f
}

// 48 records of kind 3 from record n on.
fn set_deciles(f: &mut [u8; INPUT], n: usize)
    requires { n ≤ 6 }
{
    // Stays: k is the record's number, and no list is read.
    for k in n..n + 48 {
        set_numbers(f, k, 3, ((k + 1) % 256) as u8, &DECILES);
    }
    set_record(f, n + 47, 3, 0);
}

// The text of the first n bytes, after its name.
// Stays: n beside f, since of a part `&f[..n]` of an array that a call has just answered the prover does not find by itself that it is
// within it.
fn print(name: &[u8], f: [u8; INPUT], n: usize)
    requires { n ≤ 4160 }
{
    io::write_all(1, name);
    io::write_all(1, sheet_text::sheet_text(&f[..n]).text());
}

fn circuits() {
    print(b"one point\n", points(1, 0), 128);
    print(b"one point, shape 1\n", points(1, 1), 128);
    print(b"two points\n", points(2, 0), 192);
    print(b"three points, shape 1\n", points(3, 1), 256);
    print(b"four points, shape 1\n", points(4, 1), 320);
    print(b"five points\n", points(5, 0), 384);
    let mut five = points(5, 1);
    five[64 * 5 + 2] = 6;
    set_deciles(&mut five, 6);
    print(b"five points and deciles, shape 1\n", five, 3456);
}

// 1 to 4
fn file_refusals() {
    let f = points(1, 0);
    print(b"127 bytes\n", f, 127);
    print(b"no point\n", points(0, 0), 128);
    print(b"shape 2\n", points(1, 2), 128);
    let mut past = f;
    set_record(&mut past, 0, 1, 2);
    print(b"past the last record\n", past, 128);
    print(b"a point too few\n", points(2, 0), 128);
    let mut kind = f;
    set_record(&mut kind, 1, 3, 0);
    print(b"a decile record for a point\n", kind, 128);
}

// 7, 9
fn path_refusals() {
    let far = scalar::bits(41000.0);
    print(b"gcdkm -2000\n", changed(12, scalar::bits(-2000.0)), 128);
    print(b"gcdkm NaN, outside for both\n", changed(12, NAN), 128);
    print(b"gcdkm 41000\n", changed(12, far), 128);
    print(b"gcd NaN\n", changed(8, NAN), 128);
    print(b"amind 91\n", changed(16, scalar::bits(91.0)), 128);
    print(b"amind NaN\n", changed(16, NAN), 128);
}

// 11, 12, and which of them comes first
fn hour_refusals() {
    let steep = scalar::bits(90.0);
    print(b"E hops\n", changed(16, steep), 128);
    let mut late = changed(124, scalar::bits(-3.0));
    late[66] = 2;
    set_deciles(&mut late, 2);
    let mut hops = late;
    set_word(&mut hops, 16, steep);
    print(b"E hops, and clck -3\n", hops, 3200);
    print(b"clck -3\n", late, 3200);
    set_word(&mut late, 116, 0);
    print(b"clck -3, and Es hops\n", late, 3200);
    print(b"Es hops\n", changed(116, 0), 128);
}

fn nans() {
    print(b"F1 NaN\n", changed(72, NAN), 128);
    print(b"F2 NaN\n", changed(76, NAN), 128);
    print(b"E, F1 and F2 NaN\n", frequencies(NAN, NAN, NAN), 128);
}

fn calls() {
    let zero = scalar::bits(0.0);
    let minus = scalar::bits(-0.0);
    print(b"MUF 0\n", frequencies(zero, zero, zero), 128);
    print(b"MUF -0\n", frequencies(minus, minus, minus), 128);
    let below = frequencies(scalar::bits(-1.0), zero, scalar::bits(-2.0));
    print(b"MUF below 0\n", below, 128);
    print(
        b"a MUF just below 634.8\n",
        changed(76, scalar::bits(199.609375)),
        128,
    );
    print(b"MUF above 1000\n", changed(76, scalar::bits(340.0)), 128);
}

fn main() {
    circuits();
    file_refusals();
    path_refusals();
    hour_refusals();
    nans();
    calls();
}
