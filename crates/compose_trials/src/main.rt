// What `compose` prints of a text with each thing that can be wrong. The stored output has the texts of the definition.
// Stays: functions of our own and no `Display`, for the reason in crate `lines`; loops that only count how often a line is put.
#![tactic(auto)]

use lines::Page;

fn print(text: &[u8]) {
    io::write_all(1, composing::composed_text(text).text());
}

fn lines() {
    print(b"foo\n");
    print(b"# a path\npath shap 0\n");
    print(b"path gcd 1 gcd 2\n");
    print(b"\n\npath gcd 1.2.3\n");
    print(b"path gcd\n");
    print(b"path gcd 1 # and no more");
}

fn order() {
    print(b"path ssn 1 amind 2 gcdkm 3 gcd 4 shape 2\n");
    print(b"path ssn 1 amind 2 gcdkm 3 gcd 4 shape 1\npath ssn 1 amind 2 gcdkm 3 gcd 4 shape 1\n");
    print(b"\npoint fi 1 2 3 yi 4 5 6 hi 7 8 9 fs 1 2 3 hs 4 clat 5 clck 6\n");
    print(b"path ssn 1 amind 2 gcdkm 3 gcd 4 shape 1\ndeciles 1 2 3 4 5 6 7 8 9 10 11 12\n");
    print(b"");
    print(b"path ssn 1 amind 2 gcdkm 3 gcd 4 shape 1\r\n");
}

const POINT: &[u8] = b"point fi 1 2 3 yi 4 5 6 hi 7 8 9 fs 1 2 3 hs 4 clat 5 clck 6\n";

// A path and a point.
fn put_start<const N: usize>(page: &mut Page<N>) {
    page.put_word(b"path ssn 1 amind 2 gcdkm 3 gcd 4 shape 1\n");
    page.put_word(POINT);
}

fn put_deciles<const N: usize>(page: &mut Page<N>, lines: usize) {
    for _i in 0..lines {
        page.put_word(b"deciles 1 2 3 4 5 6 7 8 9 10 11 12\n");
    }
}

// The last line of each of these texts is blank, up to the page's end.
// Stays: a page made and printed in each of these functions, since each page has a size of its own.
fn six_points() {
    let mut page: Page<512> = Page::new();
    put_start(&mut page);
    for _i in 0..5 {
        page.put_word(POINT);
    }
    lines::aligned::put_repeated(&mut page, b' ', 512);
    print(page.text());
}

fn late_point() {
    let mut page: Page<256> = Page::new();
    put_start(&mut page);
    put_deciles(&mut page, 1);
    page.put_word(POINT);
    lines::aligned::put_repeated(&mut page, b' ', 256);
    print(page.text());
}

fn deciles(lines: usize) {
    let mut page: Page<2048> = Page::new();
    put_start(&mut page);
    put_deciles(&mut page, lines);
    lines::aligned::put_repeated(&mut page, b' ', 2048);
    print(page.text());
}

// One comment as long as a text may be, and one byte longer.
fn longest() {
    print(&[b'#'; 32768]);
    print(&[b'#'; 32769]);
}

fn main() {
    lines();
    order();
    six_points();
    late_point();
    deciles(49);
    deciles(7);
    longest();
}
