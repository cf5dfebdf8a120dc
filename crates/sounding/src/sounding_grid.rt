// The thirty sounding frequencies: 0 to 9 the D-E tail and the E nose, 10 the E-F cusp, 11 to 29 F1
// and F2, or F2 alone.
ghost use Rattle.std.specs.Prelude.{◌≡◌};
ghost use Rattle.sounding.specs.Grid.{e_grid, nose_grid, f_grid, fvert_of};

use profile::slot_curves::fill;

fn e_grid(fv: [f32; 30], fi0: f32) -> [f32; 30]
    ensures { result ≡ e_grid fv fi0 }
{
    let mut l = fv;
    let fex = fi0 * scalar::sqrt(1.0 - 0.85 * 0.85);
    l[0] = 0.01;
    l[3] = fex;
    let fdif = (l[3] - l[0]) / 3.0;
    l[1] = l[0] + fdif;
    l[2] = l[1] + fdif;
    l[8] = 0.957 * fi0;
    l[9] = 0.99 * fi0;
    let step = (l[8] - l[3]) / 5.0;
    fill(l, 3, 4, step)
}

// Stays: fi0 and fi2, here and at `fvert`, are two of a slot's frequencies, and the caller has the slot.
fn nose_grid(fv: [f32; 30], fi0: f32, fi2: f32) -> [f32; 30]
    ensures { result ≡ nose_grid fv fi0 fi2 }
{
    let mut l = fv;
    l[10] = 1.05 * fi0;
    l[29] = 0.99 * fi2;
    l[28] = 0.98 * fi2;
    l[27] = 0.96 * fi2;
    l[26] = 0.92 * fi2;
    l
}

fn f_grid(fv: [f32; 30], fi1: f32) -> [f32; 30]
    ensures { result ≡ f_grid fv fi1 }
{
    let mut l = fv;
    if fi1 <= 0.0 {
        let fdif = (l[26] - l[10]) / 16.0;
        return fill(l, 10, 15, fdif);
    }
    l[19] = 0.99 * fi1;
    let below = (l[19] - l[10]) / 9.0;
    let mut g = fill(l, 10, 8, below);
    g[20] = 1.01 * fi1;
    let above = (g[26] - g[20]) / 6.0;
    fill(g, 20, 5, above)
}

// Stays: fi0, fi1 and fi2, as at `nose_grid`.
pub fn fvert(fi0: f32, fi1: f32, fi2: f32) -> [f32; 30]
    ensures { result ≡ fvert_of fi0 fi1 fi2 }
{
    let fv = [0.0; 30];
    f_grid(nose_grid(e_grid(fv, fi0), fi0, fi2), fi1)
}
