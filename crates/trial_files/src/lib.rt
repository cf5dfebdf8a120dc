// Circuit files made by hand, for trials. Of what they hold nothing is promised: the trials' stored outputs tell.
// Stays: a file and its record n, below 65 as there is room, since a trial changes one record of a file at a time.
#![tactic(auto)]

ghost use Rattle.std.specs.Prelude.{◌<◌, ◌≤◌};

use records::Kind;

// Room for 65 records of the new form, one more than a file may have.
pub const ROOM: usize = 8320;

// How many bytes a record has.
#[derive(Clone, Copy, Debug, PartialEq, Eq)]
pub enum RecordSize {
    Old = 64,
    New = 128,
}

#[derive(Clone, Copy, Debug, PartialEq, Eq)]
pub struct File {
    form: RecordSize,
    pub bytes: [u8; ROOM],
}

impl RecordSize {
    fn size(self) -> usize
        ensures { result ≤ 128 }
    {
        self as usize
    }

    // The kind of record 0.
    fn first_kind(self) -> u8 {
        let kind = match self {
            RecordSize::Old => Kind::Head,
            RecordSize::New => Kind::WideHead,
        };
        kind as u8
    }
}

impl File {
    // Record 0 and one point, the chain 0, 1.
    pub fn smallest(form: RecordSize) -> File {
        let blank = File {
            form,
            bytes: [0; ROOM],
        };
        let mut f = blank.record(0, form.first_kind(), 1);
        f.bytes[4] = 1;
        f.record(1, Kind::Point as u8, 0)
    }

    // n records of kind 3 after those two, in order.
    pub fn with_deciles(form: RecordSize, n: usize) -> File
        requires { n ≤ 60 }
    {
        let mut f = File::smallest(form).record(1, Kind::Point as u8, 2);
        // Stays: k is the record's number, and no list is read.
        for k in 2..n + 2 {
            f = f.record(k, Kind::Deciles as u8, ((k + 1) % 256) as u8);
        }
        f.signed(n + 1).record(n + 1, Kind::Deciles as u8, 0)
    }

    // The smallest file with another byte of record 0.
    fn with_byte(form: RecordSize, at: usize, byte: u8) -> File
        requires { at < 64 }
    {
        let mut f = File::smallest(form);
        f.bytes[at] = byte;
        f
    }

    // The first n records.
    pub fn first(&self, n: usize) -> &[u8]
        requires { n ≤ 65 }
    {
        &self.bytes[..self.form.size() * n]
    }

    // Record n has this kind and next index.
    // Stays: the kind is a byte, since a trial may write any.
    pub fn record(mut self, n: usize, kind: u8, next: u8) -> File
        requires { n < 65 }
    {
        let at = self.form.size() * n;
        self.bytes[at] = kind;
        self.bytes[at + 2] = next;
        self
    }

    // In the new form the last decile of record n is minus zero.
    fn signed(mut self, n: usize) -> File
        requires { n < 65 }
    {
        if self.form == RecordSize::New {
            let at = self.form.size() * n;
            self.bytes[at + 51] = 128;
        }
        self
    }
}

// Bytes of record 0 that are turned away in either form, each file handed over after its name.
// Stays: `form` and `print` are what a trial chooses, which files and how they are shown, and `print` may be called at any.
pub fn first_bytes<P: Fn(&[u8], &[u8])>(form: RecordSize, print: P)
    requires { P.IsAlwaysCallable print }
{
    print(b"km 0\n", File::with_byte(form, 4, 0).first(2));
    print(b"km 6\n", File::with_byte(form, 4, 6).first(2));
    print(b"shape 2\n", File::with_byte(form, 5, 2).first(2));
    print(b"byte 7\n", File::with_byte(form, 7, 1).first(2));
    print(b"byte 63\n", File::with_byte(form, 63, 1).first(2));
}

// Steps that lead astray.
pub fn steps<P: Fn(&[u8], &[u8])>(form: RecordSize, print: P)
    requires { P.IsAlwaysCallable print }
{
    let past = File::smallest(form).record(0, form.first_kind(), 2);
    print(b"past the last record\n", past.first(2));
    let itself = File::smallest(form).record(1, Kind::Point as u8, 1);
    print(b"a step to itself\n", itself.first(2));
    let mut cycle = File::smallest(form)
        .record(1, Kind::Point as u8, 2)
        .record(2, Kind::Point as u8, 1);
    cycle.bytes[4] = 2;
    print(b"a cycle\n", cycle.first(3));
    print(b"next 257\n", File::with_byte(form, 3, 1).first(2));
}

// Chains that end too early or too late, or come to another kind of record.
pub fn ends<P: Fn(&[u8], &[u8])>(form: RecordSize, print: P)
    requires { P.IsAlwaysCallable print }
{
    let ended = File::smallest(form).record(0, form.first_kind(), 0);
    print(b"record 0 ends\n", ended.first(2));
    let kind = File::smallest(form).record(1, Kind::Deciles as u8, 0);
    print(b"no point\n", kind.first(2));
    print(b"a point too few\n", File::with_byte(form, 4, 2).first(2));
    let many = File::smallest(form)
        .record(1, Kind::Point as u8, 2)
        .record(2, Kind::Point as u8, 0);
    print(b"a point too many\n", many.first(3));
}

// A chain that steps back to a record that it has not met.
pub fn permuted<P: Fn(&[u8], &[u8])>(form: RecordSize, print: P)
    requires { P.IsAlwaysCallable print }
{
    let mut f = File::smallest(form)
        .record(0, form.first_kind(), 2)
        .record(2, Kind::Point as u8, 1)
        .record(1, Kind::Point as u8, 0);
    f.bytes[4] = 2;
    print(b"a permuted chain\n", f.first(3));
}
