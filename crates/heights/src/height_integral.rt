// The virtual height of a vertical frequency, the integral evaluated rather than approximated: on a
// segment the density is linear in height, so that each has a closed form.
ghost use Rattle.std.specs.Prelude.{◌≡◌, false, ◌≤◌, T, Float};
ghost use Rattle.std.specs.List.{position};
ghost use Rattle.scalar.specs.F32.{◌+f◌, ◌-f◌, ◌>f◌, ◌≥f◌, at};
ghost use Rattle.scalar.specs.Literals.{f0};
ghost use Rattle.heights.specs.Exact.{last_of, seg_of, whole_of, virtual_height_exact_of};

use readings::Profile;

fn reaching(htr: &[f32], top: f32) -> Option<usize>
    ensures { result ≡ position (λ (h : Float). h ≥f top) htr.now }
{
    htr.iter().position(|h| *h >= top)
}

// The place of the first height at or above `top`, and 49 where there is none.
fn last(htr: &[f32; 50], top: f32) -> usize
    ensures { (result ≡ last_of htr.now top) × (result ≤ 49) }
{
    reaching(htr, top).unwrap_or(49)
}

// From the height `z1` to `z2`, the density over the frequency's square going from `y1` to `y2`.
// Where it is flat the integral diverges as `y1` comes to 1, so there it is cut at 0.9999.
fn seg(z1: f32, y1: f32, z2: f32, y2: f32) -> f32
    ensures { result ≡ seg_of z1 y1 z2 y2 }
{
    let dz = z2 - z1;
    if dz <= 0.0 {
        return 0.0;
    }
    if scalar::abs(y2 - y1) < 1e-9 {
        return dz / scalar::sqrt(1.0 - scalar::min(y1, 0.9999));
    }
    let lower = scalar::sqrt(scalar::max(1.0 - y1, 0.0));
    let upper = scalar::sqrt(scalar::max(1.0 - y2, 0.0));
    2.0 * dz / (y2 - y1) * (lower - upper)
}

// The lowest `n` segments, whole.
fn whole(p: Profile, fr: f32, n: usize) -> f32
    requires { n ≤ 49 }
    ensures { result ≡ whole_of p.entry.htr.now p.entry.fnsq.now fr n }
{
    let Profile { htr, fnsq, .. } = p;
    let mut sum = 0.0;
    // Stays: neighbours of two lists by one index, summed in the Rust's order.
    for i in 0..n {
        let next = i + 1;
        let y = scalar::min(fnsq[next] / fr, 1.0);
        let part = seg(htr[i], fnsq[i] / fr, htr[next], y);
        sum = sum + part;
    }
    sum
}

// The reflecting height `x` as the lowest one plus their difference. Where that is above zero the
// sum is above the lowest height or NaN (`above-lowest`), so the lowest is not at or above it.
fn top(h0: f32, x: f32) -> f32
    ensures { (result ≡ h0 +f (x -f h0)) × (T (x -f h0 >f f0) → (h0 ≥f result) ≡ false) }
{
    h0 + (x - h0)
}

// How far the virtual height is above the lowest height, where the reflecting height `x` is above it.
pub fn virtual_height_exact(p: Profile, fr: f32, x: f32) -> f32
    requires { T (x -f at p.htr.now 0 >f f0) }
    ensures { result ≡ virtual_height_exact_of p.entry.htr.now p.entry.fnsq.now fr (x -f at p.entry.htr.now 0) }
{
    let Profile { htr, fnsq, .. } = p;
    let end = top(htr[0], x);
    let n = last(htr, end) - 1;
    let sum = whole(p, fr, n);
    let part = seg(htr[n], fnsq[n] / fr, end, 1.0);
    sum + part
}
