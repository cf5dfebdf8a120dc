// The fifty heights of the profile: 0 to 4 the D region, to 16 the E layer, 17 to 49 F1 and F2, or F2 alone.
ghost use Rattle.std.specs.Prelude.{◌≡◌, ◌+◌, ◌<◌};
ghost use Rattle.profile.specs.Grid.{filled, lower_of, f2_only_of, upper_of, heights_of};

use crate::slot_curves::Slot;

// The n places after `from`, each hdif above the one before.
// Stays: a turn reads the place that the turn before it wrote.
pub fn fill<const M: usize>(htr: [f32; M], from: usize, n: usize, hdif: f32) -> [f32; M]
    requires { from + n < M }
    ensures { result ≡ filled htr.entry from hdif n }
{
    let mut l = htr;
    for k in 0..n {
        let i = from + k;
        let v = l[i] + hdif;
        let j = from + k + 1;
        l[j] = v;
    }
    l
}

fn lower(htr: [f32; 50], s: Slot, hex: f32) -> [f32; 50]
    ensures { result ≡ lower_of htr s hex }
{
    let mut l = htr;
    l[0] = 70.0;
    l[4] = hex;
    let hdif = scalar::max((l[4] - l[0]) * 0.25, 0.0);
    let m = scalar::min(hdif, 1.0);
    l[3] = l[4] - m;
    l[1] = l[0] + hdif;
    l[2] = (l[1] + l[3]) * 0.5;
    l[10] = s.hi0;
    let below = (l[10] - l[4]) / 6.0;
    let mut g = fill(l, 4, 5, below);
    g[16] = s.hi0 + s.yi0;
    let above = (g[16] - g[10]) / 6.0;
    let mut i = fill(g, 10, 5, above);
    i[10] = 0.5 * (i[9] + i[11]);
    i
}

fn f2_only(s: Slot) -> bool
    ensures { result ≡ f2_only_of s }
{
    if s.fi1 <= 0.0 {
        return true;
    }
    let hb2 = s.hi2 - s.yi2;
    let hb1n = s.hi1 - s.yi1 + 0.00001;
    hb2 - hb1n < 0.0
}

fn upper(htr: [f32; 50], s: Slot) -> [f32; 50]
    ensures { result ≡ upper_of htr s }
{
    let mut a = htr;
    if f2_only(s) {
        a[17] = s.hi2 - s.yi2;
        let hdif = (a[49] - a[17]) / 32.0;
        return fill(a, 17, 31, hdif);
    }
    let m = scalar::max(s.hi1 - s.yi1, a[16] + 1.0);
    a[17] = m;
    a[27] = s.hi1;
    let below = (a[27] - a[17]) / 10.0;
    let c = fill(a, 17, 9, below);
    let above = (c[49] - c[27]) / 22.0;
    fill(c, 27, 21, above)
}

pub fn heights(s: Slot, hex: f32) -> [f32; 50]
    ensures { result ≡ heights_of s hex }
{
    let mut l = lower([0.0; 50], s, hex);
    l[49] = s.hi2;
    upper(l, s)
}
