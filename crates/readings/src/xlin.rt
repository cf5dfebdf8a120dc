// Interpolation between the fifty nodes of a grid.
ghost use Rattle.std.specs.Prelude.{◌≡◌};
ghost use Rattle.readings.specs.Xlin.{xlin_found};

use crate::{Found, profile_interpolate};

// The number of `yn` that goes with `x`, on the line between the neighbours of `x` in `xn`, and the
// segment of that line; the first one where `x` is below the first of `xn`, and then 50. Level and
// falling segments are treated as by `profile_interpolate`.
// Stays: `xn` and `yn` are the Rust's own two parameters, lent by callers in C too; the paper says 50
// where nothing is sought.
pub fn xlin(x: f32, xn: &[f32; 50], yn: &[f32; 50]) -> Found
    ensures { result ≡ xlin_found x xn.now yn.now }
{
    if xn[0] - x > 0.0 {
        let lowest = yn[0];
        return Found {
            value: lowest,
            segment: 50,
        };
    }
    profile_interpolate(xn, yn, x)
}
