// What `chain` prints of files of every refusal that it gives, and of unusual chains. The stored output has the
// paper's answers.
// Stays: a trial's `name` and its `file` are two texts, each of its own length.
#![tactic(auto)]

use trial_files::{File, RecordSize, ends, first_bytes, permuted, steps};

// The text of a file, after its name.
fn print(name: &[u8], file: &[u8]) {
    io::write_all(1, name);
    io::write_all(1, chain_text::chain_text(file).text());
}

fn lengths() {
    let f = File::smallest(RecordSize::Old);
    print(b"64 bytes\n", &f.bytes[..64]);
    print(b"127 bytes\n", &f.bytes[..127]);
    print(b"128 bytes\n", &f.bytes[..128]);
    print(b"129 bytes\n", &f.bytes[..129]);
    print(b"4096 bytes\n", &f.bytes[..4096]);
    print(b"4160 bytes\n", &f.bytes[..4160]);
    print(b"no bytes\n", &f.bytes[..0]);
}

fn first_record() {
    let mut kind = File::smallest(RecordSize::Old);
    kind.bytes[0] = 4;
    print(b"kind 4\n", kind.first(2));
    first_bytes(RecordSize::Old, print);
}

fn records() {
    ends(RecordSize::Old, print);
    let mut padded = File::with_deciles(RecordSize::Old, 48);
    padded.bytes[64 * 2 + 52] = 1;
    print(b"byte 52 of a decile record\n", padded.first(50));
}

fn chains() {
    let mut aside = File::smallest(RecordSize::Old);
    aside.bytes[128] = 9;
    aside.bytes[190] = 7;
    print(b"a record off the chain\n", aside.first(3));
    permuted(RecordSize::Old, print);
    let few = File::with_deciles(RecordSize::Old, 47);
    print(b"47 decile records\n", few.first(49));
    let all = File::with_deciles(RecordSize::Old, 48);
    print(b"48 decile records\n", all.first(50));
    let more = File::with_deciles(RecordSize::Old, 49);
    print(b"49 decile records\n", more.first(51));
}

// Where a step and the record that it starts from, or the length of the chain, are wrong at once: a step is looked at before
// what it leads to, a record before its own step.
fn collisions() {
    let mut short = File::smallest(RecordSize::Old).record(1, 2, 2);
    short.bytes[4] = 2;
    print(
        b"a point too few, and past the last record\n",
        short.first(2),
    );
    let kind = File::smallest(RecordSize::Old).record(1, 3, 9);
    print(b"no point, and then past the last record\n", kind.first(2));
    let past = File::with_deciles(RecordSize::Old, 48).record(49, 3, 60);
    print(
        b"after 48 decile records past the last record\n",
        past.first(50),
    );
    let again = File::with_deciles(RecordSize::Old, 48).record(49, 3, 2);
    print(b"after 48 decile records one met again\n", again.first(50));
    let back = File::with_deciles(RecordSize::Old, 48).record(5, 2, 1);
    print(
        b"a decile record of kind 2 that leads back\n",
        back.first(50),
    );
}

fn main() {
    lengths();
    first_record();
    steps(RecordSize::Old, print);
    records();
    chains();
    collisions();
}
