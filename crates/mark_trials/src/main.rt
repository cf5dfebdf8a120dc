// What `mark` prints of inputs that are too short or refused, of our own sheet, and of sheets that differ from it in one place. The
// stored output has the paper's answers: the sheet of this circuit has a line of `muf`, one of `call`, one of `slot`, thirty rows and
// fifty marks.
// Stays: texts side by side, as a trial's name and its input, are each of their own length.
#![tactic(auto)]

ghost use Rattle.std.specs.Prelude.{◌≤◌, length};

use lines::Page;

// A circuit of one point on a path of 3185 km.
const FILE: [u8; 128] = [
    1, 0, 1, 0, 1, 0, 0, 0, 0, 0, 0, 63, 0, 16, 71, 69, 0, 0, 64, 64, 0, 0, 200, 66, 0, 0, 0, 0, 0,
    0, 0, 0, 0, 0, 0, 0, 0, 0, 0, 0, 0, 0, 0, 0, 0, 0, 0, 0, 0, 0, 0, 0, 0, 0, 0, 0, 0, 0, 0, 0, 0,
    0, 0, 0, 2, 0, 0, 0, 0, 0, 64, 64, 0, 0, 144, 64, 0, 0, 4, 65, 0, 0, 160, 65, 0, 0, 32, 66, 0,
    0, 160, 66, 0, 0, 220, 66, 0, 0, 62, 67, 0, 0, 145, 67, 0, 0, 192, 63, 0, 0, 64, 64, 0, 0, 160,
    64, 0, 0, 220, 66, 0, 0, 64, 63, 0, 0, 64, 65,
];

// The number of its sheet's last line.
const LAST: usize = 83;

// Room for the longest input that decides, and some bytes more.
const MOST: usize = 53300;

// What is printed of an input, after its name.
fn print(name: &[u8], input: &[u8]) {
    io::write_all(1, name);
    io::write_all(1, marking::marking_text(input).text());
}

// The length, lowest byte first, then the file and the sheet.
fn lengthy(name: &[u8], length: [u8; 4], file: &[u8], sheet: &[u8]) {
    let mut input: Page<MOST> = Page::new();
    input.put_word(&length);
    input.put_word(file);
    input.put_word(sheet);
    print(name, input.text());
}

// A file of 128 bytes.
fn trial(name: &[u8], file: [u8; 128], sheet: &[u8]) {
    lengthy(name, [128, 0, 0, 0], &file, sheet);
}

fn lengths() {
    print(b"no bytes\n", b"");
    print(b"three bytes\n", b"abc");
    lengthy(b"length 0\n", [0, 0, 0, 0], b"", b"");
    lengthy(b"length 127\n", [127, 0, 0, 0], &FILE, b"");
    lengthy(
        b"length 129, one byte too few\n",
        [129, 0, 0, 0],
        &FILE,
        b"",
    );
    let record = [0u8; 64];
    lengthy(
        b"length 192, a record off the chain\n",
        [192, 0, 0, 0],
        &FILE,
        &record,
    );
    lengthy(b"length 4294967295\n", [255, 255, 255, 255], &FILE, b"");
    let long = [0u8; 4160];
    lengthy(b"length 4160\n", [64, 16, 0, 0], &long, b"");
}

// The first decile number is 0.85, and clck -3.
fn late() -> [u8; 3200] {
    let mut f = [0u8; 3200];
    f[..128].copy_from_slice(&FILE);
    f[66] = 2;
    f[126] = 64;
    f[127] = 192;
    // Stays: n is the record's number, which gives its place and the next record's.
    for n in 2..50usize {
        f[64 * n] = 3;
        f[64 * n + 2] = (n % 49 + 1) as u8;
    }
    f[3138] = 0;
    f[132..136].copy_from_slice(&[154, 153, 89, 63]);
    f
}

// A refused circuit, beside what `sheet` prints of it.
fn circuits() {
    let mut kind = FILE;
    kind[0] = 2;
    trial(b"kind 2\n", kind, b"refused 2\n");
    let mut past = FILE;
    past[2] = 2;
    trial(b"past the last record\n", past, b"refused 3\n");
    let mut record = FILE;
    record[64] = 3;
    trial(b"no point\n", record, b"refused 4\n");
    let mut far = FILE;
    far[12..16].copy_from_slice(&[0, 0, 250, 196]);
    trial(b"gcdkm -2000\n", far, b"refused 7\n");
    let mut round = FILE;
    round[12..16].copy_from_slice(&[0, 40, 32, 71]);
    trial(b"gcdkm 41000\n", round, b"refused 9\n");
    let mut steep = FILE;
    steep[18] = 180;
    steep[19] = 66;
    trial(b"amind 90\n", steep, b"refused 11\n");
    let f = late();
    lengthy(b"clck -3\n", [128, 12, 0, 0], &f, b"refused 12\n");
}

// Our sheet, then zeros up to n bytes in all.
fn sized(name: &[u8], file: [u8; 128], n: usize) {
    let ours = sheet_text::sheet_text(&FILE);
    let mut sheet: Page<MOST> = Page::new();
    sheet.put_word(ours.text());
    lines::aligned::put_repeated(&mut sheet, 0, n.saturating_sub(ours.text().len()));
    trial(name, file, sheet.text());
}

fn sizes() {
    sized(b"49152 bytes\n", FILE, 49152);
    sized(b"49153 bytes\n", FILE, 49153);
    let mut kind = FILE;
    kind[0] = 2;
    sized(b"49153 bytes, and kind 2\n", kind, 49153);
}

// How many bytes the first n lines have.
fn lines_end(s: &[u8], n: usize) -> usize
    ensures { result ≤ length s.now }
{
    let mut k = 0;
    for (i, b) in s.iter().enumerate() {
        if k == n {
            return i;
        }
        if *b == b'\n' {
            k += 1;
        }
    }
    s.len()
}

// How many bytes the first n lines of our sheet have.
fn after(n: usize) -> usize
    ensures { result ≤ 8192 }
{
    lines_end(sheet_text::sheet_text(&FILE).text(), n).min(sheet_text::ROOM)
}

// Where the line feed of line n stands.
fn feed(n: usize) -> usize {
    after(n).saturating_sub(1)
}

// Our sheet up to a byte, then other bytes, then our sheet again without the next `cut`.
fn replaced(name: &[u8], from: usize, cut: usize, by: &[u8]) {
    let page = sheet_text::sheet_text(&FILE);
    let ours = page.text();
    let start = from.min(ours.len());
    let end = start + cut.min(ours.len() - start);
    let mut sheet: Page<MOST> = Page::new();
    sheet.put_word(&ours[..start]);
    sheet.put_word(by);
    sheet.put_word(&ours[end..]);
    trial(name, FILE, sheet.text());
}

// All that is left of our sheet.
const REST: usize = sheet_text::ROOM;

fn sheets() {
    replaced(b"ours\n", 0, 0, b"");
    replaced(b"no sheet\n", 0, REST, b"");
    replaced(b"the first line alone\n", after(1), REST, b"");
    replaced(b"all but the last line\n", after(LAST - 1), REST, b"");
    replaced(
        b"three bytes of the last line\n",
        after(LAST - 1) + 3,
        REST,
        b"",
    );
    replaced(b"the last line feed missing\n", feed(LAST), 1, b"");
    replaced(b"an empty line too many\n", after(LAST), 0, b"\n");
    replaced(b"a space too many, at the end\n", after(LAST), 0, b" ");
    replaced(b"a space before the last line feed\n", feed(LAST), 0, b" ");
    replaced(b"a carriage return in the first line\n", feed(1), 0, b"\r");
    replaced(
        b"a carriage return in the last line\n",
        feed(LAST),
        0,
        b"\r",
    );
    replaced(b"an empty line in front\n", 0, 0, b"\n");
    replaced(b"the first line feed missing\n", feed(1), 1, b"");
    replaced(b"line 2 missing\n", after(1), 11, b"");
    replaced(b"a line feed in line 2\n", after(1) + 4, 0, b"\n");
    replaced(b"-0 for +0 in line 4\n", after(3) + 29, 1, b"8");
    replaced(b"a capital letter in line 4\n", after(3) + 3, 1, b"C");
    replaced(b"another byte in the last line\n", after(LAST - 1), 1, b"x");
}

fn main() {
    lengths();
    circuits();
    sizes();
    sheets();
}
