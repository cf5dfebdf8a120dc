// The cells of one angle: all guessed together, and those in doubt worked out after. Each step is made
// for thirty-two places, and the compiler makes vector instructions of it.
// Stays: the loop over the angles, since a row goes to its part of the lent cells, and of what
// `chunks_exact_mut` leaves under a zip or `enumerate` a proof knows the lengths alone. The angles and how many
// of them are scanned are handed on apart, as the Rust has them.
ghost use Rattle.std.specs.Prelude.{◌≡◌, true, map, ℕ, ◌+◌, ◌*◌, ◌^◌, ◌≤◌, ◌<◌, length, take, get_or, pos, T};
ghost use Rattle.std.specs.Float.{binary32};
ghost use Rattle.std.specs.Float.Ieee.{fits, to_bits};
ghost use Rattle.std.specs.Float.Ieee.Positive.{positive};
ghost use Rattle.scalar.specs.F32.{◌/f◌, ◌≤f◌, at as number_at};
ghost use Rattle.scalar.specs.Literals.{f0_000001, f1};
ghost use Rattle.reflectrix.specs.Cell.{khz_of, sqcos_of, low_pattern_of, high_pattern_of, in_doubt, Told};
ghost use Rattle.reflectrix.specs.Laws.{product_of};
ghost use Rattle.reflectrix.specs.Row.{RowTold, angle_cells_of, cell_scan_of};

use crate::cell_test::IN_DOUBT;
use std::array::from_fn;

// Thirty numbers, and two more: as frequency and as height they are in doubt at no angle.
pub fn padded(x: [f32; 30]) -> [f32; 32]
    ensures { take 30 result ≡ x }
{
    let mut r = [0.0123456; 32];
    r[..30].copy_from_slice(&x);
    r
}

// The patterns of the products of the numbers n, or, where `more` is 1, of those one above them.
fn products(n: &[u32; 32], more: u32, sqcos: &[f32; 32]) -> [u32; 32]
    requires few { (more ≤ 1) × ((i : ℕ) → i < 32 → get_or n.now i 0 < 2 ^ 22) }
    requires cosines { (i : ℕ) → i < 32 → T (f0_000001 ≤f number_at sqcos.now i) × T (number_at sqcos.now i ≤f f1) }
    ensures { (i : ℕ) → i < 32 → get_or result i 0 ≡ to_bits binary32 (product_of (get_or n.now i 0 + more) (number_at sqcos.now i)) }
{
    from_fn(|i| crate::cell_test::product(n[i] + more, sqcos[i]))
}

// The cell that was told, and worked out where it is in doubt.
fn mended(told: u32, fvv: f32, rcosd: f32, radius: f32) -> i32
    requires { Told fvv (sqcos_of (rcosd /f radius)) told }
    ensures { result ≡ khz_of fvv (sqcos_of (rcosd /f radius)) }
{
    if told < IN_DOUBT {
        return told as i32;
    }
    crate::cell_test::khz(fvv, crate::cell_test::squared_cosine(rcosd / radius))
}

// No cell is in doubt.
fn is_sure(told: &[u32; 32]) -> bool
    ensures { result ≡ true → (i : ℕ) → i < 32 → get_or told.now i 0 < in_doubt }
{
    told.iter().all(|r| *r < IN_DOUBT)
}

// The rows as they are laid out for all angles: each row's frequency, its distance from the Earth's
// centre, and what follows from the frequency: the number that a cell is guessed from, and the bounds of the test, by their patterns.
#[derive(Clone, Copy, Debug, PartialEq)]
pub struct Rows {
    pub fv: [f32; 32],
    pub radii: [f32; 32],
    pub plain: [f32; 32],
    pub low: [u32; 32],
    pub high: [u32; 32],
    pub ghost lows: { low ≡ map low_pattern_of fv },
    pub ghost highs: { high ≡ map high_pattern_of fv },
    pub ghost held: { (i : ℕ) → i < 32 → T (fits binary32 (number_at fv i)) },
    pub ghost plains: { (i : ℕ) → i < 32 → T (positive (number_at plain i)) },
}

impl Rows {
    pub fn new(fv: [f32; 32], radii: [f32; 32]) -> Self
        ensures fv { result.fv ≡ fv }
        ensures radii { result.radii ≡ radii }
    {
        Rows {
            fv,
            radii,
            plain: from_fn(|i| crate::cell_test::plain(fv[i])),
            low: from_fn(|i| crate::cell_test::low(fv[i])),
            high: from_fn(|i| crate::cell_test::high(fv[i])),
        }
    }

    // The squares of the cosines at the rows' heights for an angle. Floats are compared in a step of their own: the compiler makes vector
    // instructions of a step that does little else.
    fn cosines(&self, rcosd: f32) -> [f32; 32]
        ensures { (i : ℕ) → i < 32 → number_at result i ≡ sqcos_of (rcosd /f number_at self.now.radii i) }
    {
        let uncut: [f32; 32] = from_fn(|i| crate::cell_test::uncut(rcosd / self.radii[i]));
        from_fn(|i| crate::cell_test::cut(uncut[i]))
    }

    // A number for each cell, which may be wrong.
    fn numbers(&self, sqcos: &[f32; 32]) -> [u32; 32]
        requires { (i : ℕ) → i < 32 → T (f0_000001 ≤f number_at sqcos.now i) }
        ensures { (i : ℕ) → i < 32 → get_or result i 0 < 2 ^ 22 }
    {
        from_fn(|i| crate::cell_test::guess(self.plain[i], sqcos[i]))
    }

    // The cells for an angle, `IN_DOUBT` where one is in doubt.
    fn guess(&self, rcosd: f32) -> [u32; 32]
        ensures { RowTold self.now.fv self.now.radii rcosd result }
    {
        let sqcos = self.cosines(rcosd);
        let n = self.numbers(&sqcos);
        let p = products(&n, 0, &sqcos);
        let q = products(&n, 1, &sqcos);
        from_fn(|i| crate::cell_test::told(n[i], p[i], q[i], self.low[i], self.high[i]))
    }

    // The thirty cells of an angle.
    fn row(&self, rcosd: f32) -> [i32; 30]
        ensures { (i : ℕ) → i < 30 → get_or result i (pos 0) ≡ khz_of (number_at self.now.fv i) (sqcos_of (rcosd /f number_at self.now.radii i)) }
    {
        let told = self.guess(rcosd);
        if is_sure(&told) {
            return from_fn(|i| told[i] as i32);
        }
        from_fn(|i| mended(told[i], self.fv[i], rcosd, self.radii[i]))
    }

    // The cells of the first `nang` angles.
    pub fn scan(&self, rcosds: &[f32; 40], nang: usize, cells: &mut [i32])
        requires { (nang ≤ 40) × (30 * nang ≤ length cells.old) }
        ensures { cells.new ≡ cell_scan_of rcosds.now self.now.fv self.now.radii cells.old nang }
    {
        for ia in 0..nang {
            cells[30 * ia..30 * ia + 30].copy_from_slice(&self.row(rcosds[ia]));
        }
    }
}
