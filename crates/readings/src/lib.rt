// Reading a number off a profile: by a scan of the segments from the lowest on, or, where the
// heights rise, on from the segment at which the last read stopped.
#![tactic(auto)]

pub mod xlin;

ghost use Rattle.std.specs.Prelude.{◌≡◌};
ghost use Rattle.readings.specs.Scan.{interpolated, segment_of, scan_of, value_of, reading_kind, segment_number, found_of, reading_of};
ghost use Rattle.readings.specs.Cursor.{climb_of, read_on_of};

// The number at the probe on the line through (from0, to0) and (from1, to1).
fn interpolated(from0: f32, from1: f32, to0: f32, to1: f32, probe: f32) -> f32
    ensures { result ≡ interpolated from0 from1 to0 to1 probe }
{
    to0 + (probe - from0) * (to1 - to0) / (from1 - from0)
}

// The segment from (from0, to0) to (from1, to1): does it hold the probe, and with which number.
pub fn segment(from0: f32, from1: f32, to0: f32, to1: f32, probe: f32) -> Option<f32>
    ensures { result ≡ segment_of from0 from1 to0 to1 probe }
{
    let d = from0 - from1;
    if d < 0.0 {
        if from0 - probe <= 0.0 {
            if probe - from1 < 0.0 {
                return Some(interpolated(from0, from1, to0, to1, probe));
            }
            return None;
        }
        return Some(interpolated(from0, from1, to0, to1, probe));
    }
    if d == 0.0 {
        if probe - from0 == 0.0 {
            return Some(to0);
        }
        return None;
    }
    if from0 - probe >= 0.0 {
        if probe - from1 > 0.0 {
            return Some(interpolated(from0, from1, to0, to1, probe));
        }
    }
    None
}

// A density read, with its number: at or below the floor, on a segment, whose own number stands
// beside it, or above all of them.
#[derive(Clone, Copy, Debug, PartialEq)]
pub enum Reading {
    Floor(f32),
    Segment(f32, u32),
    Top(f32),
}

impl Reading {
    #[tactic(auto, unfolding(crate::specs::Scan::value_of))]
    pub fn value(self) -> f32
        ensures { result ≡ value_of self }
    {
        match self {
            Reading::Floor(v) | Reading::Segment(v, _) | Reading::Top(v) => v,
        }
    }

    // 0 on the floor, 1 on a segment, 2 at the top
    // Stays: the cases hold values, so no number stands beside them to be read by `as`.
    #[tactic(auto, unfolding(crate::specs::Scan::reading_kind))]
    pub fn kind(self) -> u32
        ensures { result ≡ reading_kind self }
    {
        match self {
            Reading::Floor(_) => 0,
            Reading::Segment(_, _) => 1,
            Reading::Top(_) => 2,
        }
    }

    // The segment of a reading, from 0: the lower of its two nodes' numbers.
    // Stays: the paper numbers the segments 0 to 49, and a case has its own number too, which `kind` gives.
    #[tactic(auto, unfolding(crate::specs::Scan::segment_number))]
    pub fn segment_number(self) -> u32
        ensures { result ≡ segment_number self }
    {
        match self {
            Reading::Floor(_) => 0,
            Reading::Segment(_, n) => n,
            Reading::Top(_) => 49,
        }
    }
}

// The first segment that holds the probe, or the top.
// Stays: `from`, `to` and `probe` are the Rust's own parameters, and the two arrays change places at a
// search by density; so below.
pub fn scan(from: &[f32; 50], to: &[f32; 50], probe: f32) -> Reading
    ensures { result ≡ scan_of from.now to.now probe }
{
    // Stays: neighbours of two lists by one index, which is the segment's number too. By `find_map` it is as long, since the
    // closure wraps each reading again and the top is put in its place after, and its proof is twice as long.
    for ih in 0..49 {
        let next = ih + 1;
        if let Some(v) = segment(from[ih], from[next], to[ih], to[next], probe) {
            return Reading::Segment(v, ih as u32);
        }
    }
    let top = to[49];
    Reading::Top(top)
}

// A number found by a search, and the segment that it was found on.
// Stays: the paper numbers the segments 0 to 49, and says 50 where nothing is sought.
#[derive(Clone, Copy, Debug, PartialEq)]
pub struct Found {
    pub value: f32,
    pub segment: u32,
}

// Stays: `from` and `to`, as at `scan`.
pub fn profile_interpolate(from: &[f32; 50], to: &[f32; 50], probe: f32) -> Found
    ensures { result ≡ found_of from.now to.now probe }
{
    let r = scan(from, to, probe);
    Found {
        value: r.value(),
        segment: r.segment_number(),
    }
}

// A reading, and the cursor that it leaves.
#[derive(Clone, Copy, Debug, PartialEq)]
pub struct Read {
    pub reading: Reading,
    pub cursor: usize,
}

// The cursor moved on from `ih` while the next height is at or below `zi`.
pub fn climb(htr: &[f32; 50], zi: f32, ih: usize) -> usize
    ensures { result ≡ climb_of htr.now zi ih }
{
    (ih..49)
        .find(|on| !(zi >= htr[*on + 1]))
        .unwrap_or(ih.max(49))
}

// A profile lent to be read.
// Stays: `rises` is the Rust's `htr_rises`, a mark beside the heights: it says of htr whether it rises.
#[derive(Clone, Copy)]
pub struct Profile<'a> {
    // fifty heights in km
    pub htr: &'a [f32; 50],
    // and at each the square of the plasma frequency, in MHz²
    pub fnsq: &'a [f32; 50],
    // whether the heights rise at every step, so that reads in rising order may go on from one another
    pub rises: bool,
}

impl Profile<'_> {
    // The density at the height `zi`, by a full scan.
    pub fn read_by_scan(self, zi: f32) -> Reading
        ensures { result ≡ reading_of self.entry.htr.now self.entry.fnsq.now zi }
    {
        let Profile { htr, fnsq, .. } = self;
        if zi - htr[0] <= 0.0 {
            let floor = fnsq[0];
            return Reading::Floor(floor);
        }
        scan(htr, fnsq, zi)
    }

    // The density at the height `zi` where the heights rise, read on from the cursor `ih`. Where `ih`
    // is not above the count of `zi` it is the scan's (`walk` of crate `heights`).
    // Stays: the floor's test stands here as in `read_by_scan`, whose answer has no cursor.
    pub fn read_on(self, zi: f32, ih: usize) -> Read
        ensures { result ≡ read_on_of self.entry.htr.now self.entry.fnsq.now zi ih }
    {
        let Profile { htr, fnsq, .. } = self;
        if zi - htr[0] <= 0.0 {
            let floor = fnsq[0];
            return Read {
                reading: Reading::Floor(floor),
                cursor: ih,
            };
        }
        let on = climb(htr, zi, ih);
        if on < 49 {
            let next = on + 1;
            let line = interpolated(htr[on], htr[next], fnsq[on], fnsq[next], zi);
            return Read {
                reading: Reading::Segment(line, on as u32),
                cursor: on,
            };
        }
        let top = fnsq[49];
        Read {
            reading: Reading::Top(top),
            cursor: on,
        }
    }
}
