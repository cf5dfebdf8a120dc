// The forty densities of the sum of `gethp`: the nodes' heights, a density read at each by one walk or by forty scans, and cut.
ghost use Rattle.std.specs.Prelude.{◌≡◌, ℕ, ◌<◌, eqb, T};
ghost use Rattle.scalar.specs.F32.{◌≤f◌, at};
ghost use Rattle.scalar.specs.Literals.{f0_9999};
ghost use Rattle.heights.specs.Nodes.{zg_by, height_of, ig_at, ib_at};
ghost use Rattle.heights.specs.ReadsByWalk.{walk_reads, scan_reads, table_by, cursor_after, cursor_read_by};

use readings::Profile;

// The positive abscissas of the Gauss rule with forty nodes; the others are their negatives.
static XT: [f32; 20] = [
    0.0387724175,
    0.1160840707,
    0.1926975807,
    0.2681521850,
    0.3419940908,
    0.4137792043,
    0.4830758017,
    0.5494671251,
    0.6125538897,
    0.6719566846,
    0.7273182552,
    0.7783056514,
    0.8246122308,
    0.8659595032,
    0.9020988070,
    0.9328128083,
    0.9579168192,
    0.9772599500,
    0.9907262387,
    0.9982377097,
];

// Stays: `ib`, 0 or 1, is the Rust's second index of `ysq[ig][ib]`.
fn node(x: f32, ib: usize) -> f32
    ensures { result ≡ zg_by (eqb ib 0) x }
{
    if ib == 0 {
        return 1.0 - x;
    }
    1.0 + x
}

// The height of node `ig` of the half `ib`, over the lowest height `h0`.
fn height(h0: f32, ht: f32, ig: usize, ib: usize) -> f32
    requires { ig < 20 }
    ensures { result ≡ height_of h0 ht ig ib }
{
    let x = XT[ig];
    let zg = node(x, ib);
    ht * (1.0 - 0.5 * zg) + h0
}

// The node of read `k` in the walk's order, and its half.
fn ig_at(k: usize) -> usize
    requires { k < 40 }
    ensures { (result < 20) × (result ≡ ig_at k) }
{
    if k < 20 {
        return 19 - k;
    }
    k - 20
}

// Up, the half 1 comes first.
fn ib_at(up: bool, k: usize) -> usize
    ensures { (result < 2) × (result ≡ ib_at up k) }
{
    usize::from((k < 20) == up)
}

// Forty densities, `ysq[ig][ib]` of the Rust at 2 * ig + ib, and the cursor after the last read.
#[derive(Clone, Copy, Debug, PartialEq)]
pub struct Densities {
    pub ysq: [f32; 40],
    pub cursor: usize,
}

// By one walk in rising order of the nodes: each read goes on from the cursor that the one before left.
fn walk_reads(p: Profile, ht: f32) -> Densities
    ensures { (result.ysq ≡ walk_reads p.entry.htr.now p.entry.fnsq.now ht 40) × (result.cursor ≡ cursor_after p.entry.htr.now p.entry.fnsq.now ht 40) }
{
    let up = ht >= 0.0;
    let h0 = p.htr[0];
    let mut ysq = [0.0; 40];
    let mut ih = 0usize;
    // Stays: each read goes on from the cursor that the one before left, and is put at its node's place.
    for k in 0..40 {
        let ig = ig_at(k);
        let ib = ib_at(up, k);
        let zi = height(h0, ht, ig, ib);
        let r = p.read_on(zi, ih);
        ih = r.cursor;
        let g = r.reading;
        let y = g.value();
        let place = 2 * ig + ib;
        ysq[place] = y;
    }
    Densities { ysq, cursor: ih }
}

// By forty scans, which leave the cursor at 0.
fn scan_reads(p: Profile, ht: f32) -> Densities
    ensures { (result.ysq ≡ scan_reads p.entry.htr.now p.entry.fnsq.now ht 40) × (result.cursor ≡ 0) }
{
    let h0 = p.htr[0];
    let ysq = std::array::from_fn(|k| p.read_by_scan(height(h0, ht, k / 2, k % 2)).value());
    Densities { ysq, cursor: 0 }
}

// The forty densities over `fr`, cut, after all are read; and the cursor.
// Stays: `p` stands where the Rust has its state, beside its `ht` and `fr`, and one of two ways to read is
// chosen by its own test, `if !s.htr_rises`.
pub fn gethp_densities(p: Profile, ht: f32, fr: f32) -> Densities
    ensures { (result.ysq ≡ table_by p.entry.rises p.entry.htr.now p.entry.fnsq.now ht fr) × (result.cursor ≡ cursor_read_by p.entry.rises p.entry.htr.now p.entry.fnsq.now ht) × ((k : ℕ) → k < 40 → T (at result.ysq k ≤f f0_9999)) }
{
    let d = if p.rises {
        walk_reads(p, ht)
    } else {
        scan_reads(p, ht)
    };
    Densities {
        ysq: crate::integrands::shares(d.ysq, fr),
        cursor: d.cursor,
    }
}
