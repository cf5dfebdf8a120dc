// Replays stored hours: circuit files, and what the sheet of each is by the paper and the Rust. The list on
// standard input is written by the oracle's program `wrong` (oracle/README.md), again whenever an elementary
// function changes its answers. An hour is two lengths of two bytes, of the file and of the text, then both.
#![tactic(auto)]

use sheet_text::{INPUT, ROOM};

// What became of an hour.
#[derive(Clone, Copy, Debug, PartialEq, Eq)]
pub enum Replay {
    Same,
    Different,
    // the list is over
    End,
    // the list breaks off within an hour, or has a length that none has
    Broken,
}

// Whether the sheet of a file is this text. Stays: two lists of bytes, which are no pairs.
fn same_sheet(file: &[u8], wanted: &[u8]) -> bool {
    sheet_text::sheet_text(file).text() == wanted
}

fn hour(n: usize, m: usize) -> Replay {
    if n > INPUT || m > ROOM {
        return Replay::Broken;
    }
    let mut file = [0u8; INPUT];
    let mut wanted = [0u8; ROOM];
    if io::read_full(0, &mut file[..n]) < n || io::read_full(0, &mut wanted[..m]) < m {
        return Replay::Broken;
    }
    if same_sheet(&file[..n], &wanted[..m]) {
        Replay::Same
    } else {
        Replay::Different
    }
}

fn next_hour() -> Replay {
    let mut head = [0u8; 4];
    let got = io::read_full(0, &mut head);
    if got == 0 {
        return Replay::End;
    }
    if got < 4 {
        return Replay::Broken;
    }
    let n = u16::from_le_bytes([head[0], head[1]]);
    let m = u16::from_le_bytes([head[2], head[3]]);
    hour(usize::from(n), usize::from(m))
}

// How many hours of each kind, and how often the list breaks off.
#[derive(Clone, Copy, Debug, PartialEq, Eq)]
pub struct Totals {
    pub same: u64,
    pub different: u64,
    pub breaks: u64,
}

// The whole list, of at most 100,000 hours.
fn replayed() -> Totals {
    let mut totals = Totals {
        same: 0,
        different: 0,
        breaks: 0,
    };
    // Stays: what is counted is no place of a list but how long to go on; a list that never ends is cut off.
    for _ in 0..100000u64 {
        match next_hour() {
            Replay::Same => totals.same += 1,
            Replay::Different => totals.different += 1,
            Replay::End => return totals,
            Replay::Broken => break,
        }
    }
    totals.breaks = 1;
    totals
}

fn say(what: &[u8], n: u64) {
    io::print_decimal(1, n);
    io::write_all(1, what);
}

fn main() {
    let t = replayed();
    say(b" hours as stored\n", t.same);
    say(b" hours different\n", t.different);
    say(b" breaks in the list\n", t.breaks);
}
