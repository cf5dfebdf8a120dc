// The lines of two traces, one after the other: the line at the smaller of the kHz that are left.
ghost use Rattle.std.specs.Prelude.{◌≡◌, ◌+◌, ◌<◌, pos, ◌-ℤ◌, length};
ghost use Rattle.traces.specs.Trace.{TraceRows};
ghost use Rattle.traces.specs.Lines.{which_number, of_first, of_second, trace_lines, line_at};

use std::cmp::Ordering;

// Which of the traces have a row at a line's kHz, with the number that says so in the lists that callers lend.
#[derive(Clone, Copy, Debug, PartialEq, Eq)]
pub enum Which {
    Both = 0,
    First = 1,
    Second = 2,
}

impl From<Which> for u32 {
    ghost from_gives = { λ w n. n ≡ which_number w };

    fn from(w: Which) -> u32 {
        w as u32
    }
}

impl Which {
    // How many rows of the first a line so marked accounts for,
    pub fn of_first(self) -> usize
        ensures { result ≡ of_first self }
    {
        usize::from(self != Which::Second)
    }

    // and how many of the second.
    pub fn of_second(self) -> usize
        ensures { result ≡ of_second self }
    {
        usize::from(self != Which::First)
    }
}

#[derive(Clone, Copy, Debug, PartialEq, Eq)]
pub struct Line {
    pub khz: u32,
    pub which: Which,
    // the first's height less the second's, in tenths of a kilometre; 0 where there is one only.
    // Stays: a number beside `which` and not within it, since callers lend a list for it, in which 0 stands.
    pub difference: i64,
}

fn less(h: u32, k: u32) -> i64
    ensures { result ≡ pos h -ℤ pos k }
{
    i64::from(h) - i64::from(k)
}

// The first line of what is left of two traces.
// Stays: each trace is two lists, as callers in C lend it.
pub fn next(a: &[u32], ah: &[u32], b: &[u32], bh: &[u32]) -> Line
    requires { TraceRows a.now ah.now × TraceRows b.now bh.now × (0 < length a.now + length b.now) }
    ensures { result ≡ line_at (trace_lines a.now ah.now b.now bh.now) 0 }
{
    if a.is_empty() {
        return Line {
            khz: b[0],
            which: Which::Second,
            difference: 0,
        };
    }
    if b.is_empty() {
        return Line {
            khz: a[0],
            which: Which::First,
            difference: 0,
        };
    }
    match a[0].cmp(&b[0]) {
        Ordering::Less => Line {
            khz: a[0],
            which: Which::First,
            difference: 0,
        },
        Ordering::Greater => Line {
            khz: b[0],
            which: Which::Second,
            difference: 0,
        },
        Ordering::Equal => Line {
            khz: a[0],
            which: Which::Both,
            difference: less(ah[0], bh[0]),
        },
    }
}
