// What `narrow` makes of files of every refusal that it gives, and of unusual chains: the chain of the old file, or the
// refusal. Then old files, widened and narrowed again. The stored output has the paper's answers.
// Stays: a trial's `name` and its `file` are two texts, each of its own length.
#![tactic(auto)]

use trial_files::{File, RecordSize, ends, first_bytes, permuted, steps};

// A refusal is shorter than a record; of a file its chain is shown.
fn show(old: &[u8]) {
    if old.len() < 64 {
        io::write_all(1, old);
        return;
    }
    io::write_all(1, chain_text::chain_text(old).text());
}

// What becomes of a file, after its name.
fn print(name: &[u8], file: &[u8]) {
    io::write_all(1, name);
    show(circuit_turn::narrow(file).text());
}

fn lengths() {
    let f = File::smallest(RecordSize::New);
    print(b"no bytes\n", &f.bytes[..0]);
    print(b"128 bytes\n", &f.bytes[..128]);
    print(b"255 bytes\n", &f.bytes[..255]);
    print(b"256 bytes\n", &f.bytes[..256]);
    print(b"257 bytes\n", &f.bytes[..257]);
    print(b"320 bytes\n", &f.bytes[..320]);
    print(b"8192 bytes\n", &f.bytes[..8192]);
    print(b"8320 bytes\n", &f.bytes[..8320]);
}

fn first_record() {
    let mut kind = File::smallest(RecordSize::New);
    kind.bytes[0] = 1;
    print(b"kind 1\n", kind.first(2));
    first_bytes(RecordSize::New, print);
    let mut added = File::smallest(RecordSize::New);
    added.bytes[64] = 1;
    print(b"byte 64 of record 0\n", added.first(2));
    let mut last = File::smallest(RecordSize::New);
    last.bytes[127] = 1;
    print(b"byte 127 of record 0\n", last.first(2));
}

fn records() {
    ends(RecordSize::New, print);
    let mut after = File::smallest(RecordSize::New);
    after.bytes[128 + 68] = 1;
    print(b"byte 68 of a point\n", after.first(2));
    let mut last = File::smallest(RecordSize::New);
    last.bytes[128 + 127] = 1;
    print(b"byte 127 of a point\n", last.first(2));
}

fn decile_records() {
    let mut padded = File::with_deciles(RecordSize::New, 48);
    padded.bytes[128 * 2 + 52] = 1;
    print(b"byte 52 of a decile record\n", padded.first(50));
    let mut added = File::with_deciles(RecordSize::New, 48);
    added.bytes[128 * 2 + 64] = 1;
    print(b"byte 64 of a decile record\n", added.first(50));
    let few = File::with_deciles(RecordSize::New, 47);
    print(b"47 decile records\n", few.first(49));
    let more = File::with_deciles(RecordSize::New, 49);
    print(b"49 decile records\n", more.first(51));
    let mut zero = File::with_deciles(RecordSize::New, 48);
    zero.bytes[128 * 49 + 51] = 0;
    print(b"48 decile records, all +0\n", zero.first(50));
    let all = File::with_deciles(RecordSize::New, 48);
    print(b"48 decile records\n", all.first(50));
}

fn f2m3() {
    let mut one = File::smallest(RecordSize::New);
    one.bytes[128 + 64] = 1;
    print(b"F2M3 00000001\n", one.first(2));
    let mut minus = File::smallest(RecordSize::New);
    minus.bytes[128 + 67] = 128;
    print(b"F2M3 80000000\n", minus.first(2));
    let mut astray = minus.record(1, 2, 2);
    astray.bytes[4] = 2;
    print(b"F2M3, then astray\n", astray.first(2));
    let mut short = minus;
    short.bytes[4] = 2;
    print(b"F2M3, chain too short\n", short.first(2));
    let mut after = minus;
    after.bytes[128 + 68] = 1;
    print(b"F2M3 and byte 68\n", after.first(2));
    let mut aside = File::smallest(RecordSize::New).record(2, 2, 0);
    aside.bytes[256 + 64] = 1;
    print(b"F2M3 off the chain\n", aside.first(3));
}

// An old file of record 0, one point and a record off the chain.
fn old_file() -> [u8; 192] {
    let mut f = [0u8; 192];
    f[0] = 1;
    f[2] = 2;
    f[4] = 1;
    f[64] = 9;
    f[128] = 2;
    f
}

// What is left of an old file that is widened, then narrowed.
fn there_and_back(name: &[u8], f: [u8; 192]) {
    io::write_all(1, name);
    let wide = circuit_turn::widen(&f);
    show(circuit_turn::narrow(wide.text()).text());
}

// What is shown of an old file that `widen` refuses.
fn widen_refused(name: &[u8], f: [u8; 192]) {
    io::write_all(1, name);
    show(circuit_turn::widen(&f).text());
}

fn old_files() {
    let f = old_file();
    there_and_back(b"there and back\n", f);
    let mut kind = f;
    kind[0] = 4;
    widen_refused(b"widen: kind 4\n", kind);
    let mut astray = f;
    astray[2] = 3;
    widen_refused(b"widen: past the last record\n", astray);
    let mut point = f;
    point[128] = 3;
    widen_refused(b"widen: no point\n", point);
}

fn main() {
    lengths();
    first_record();
    steps(RecordSize::New, print);
    records();
    decile_records();
    f2m3();
    permuted(RecordSize::New, print);
    old_files();
}
