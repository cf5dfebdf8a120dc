// The elevation angles of the scan, degrees, and how many of them apply to a path.
ghost use Rattle.std.specs.Prelude.{◌≡◌, ◌<◌, ◌≤◌, get_or, position, Float};
ghost use Rattle.scalar.specs.F32.{◌-f◌, ◌≥f◌, at};
ghost use Rattle.scalar.specs.Literals.{f0, f8_5};
ghost use Rattle.reflectrix.specs.Angles;
ghost use Rattle.reflectrix.specs.Angles.{distance_step_of, step_found, raised_from, angle_count_of, sang_of};

use refusal::Refusal;

static ANG: [f32; 40] = [
    0.0, 0.5, 1.0, 2.0, 3.0, 4.0, 5.0, 6.0, 8.0, 10.0, 12.0, 14.0, 16.0, 18.0, 20.0, 22.0, 24.0,
    26.0, 28.0, 30.0, 32.0, 34.0, 36.0, 38.0, 40.0, 42.0, 44.0, 46.0, 48.0, 50.0, 52.0, 54.0, 56.0,
    60.0, 65.0, 70.0, 75.0, 80.0, 85.0, 89.99,
];

// The count of angles for each step of 2000 km: a longer path has flat rays only.
static NANGX: [usize; 8] = [40, 34, 29, 24, 19, 14, 12, 9];

pub fn angle(ia: usize) -> f32
    requires { ia < 40 }
    ensures { result ≡ at Angles.ANG ia }
{
    ANG[ia]
}

fn nangx(i: usize) -> usize
    requires { i < 8 }
    ensures { result ≡ get_or Angles.NANGX i 0 }
{
    NANGX[i]
}

// The step of 2000 km that the path lies in, from 1, and 8 for all beyond.
fn step(gcdkm: f32) -> Option<usize>
    ensures { result ≡ step_found (distance_step_of gcdkm) }
{
    let id = scalar::trunc(gcdkm / 2000.0 + 1.0);
    if id < 1 {
        return None;
    }
    Some(id.min(8) as usize)
}

// The first place of an angle at least 8.5 degrees above the least takeoff angle.
fn high_enough(angles: &[f32], amind: f32) -> Option<usize>
    ensures { result ≡ position (λ (a : Float). a -f f8_5 -f amind ≥f f0) angles.now }
{
    angles.iter().position(|a| *a - 8.5 - amind >= 0.0)
}

// The first count whose last angle is that high.
fn raised(amind: f32) -> usize
    ensures { result ≡ raised_from amind 40 0 }
{
    high_enough(&ANG, amind).unwrap_or(39) + 1
}

// Counted again where the last angle is less than 10 degrees above a least takeoff angle above 0.
fn count(amind: f32, iang: usize) -> usize
    requires { (0 < iang) × (iang ≤ 40) }
    ensures { result ≡ angle_count_of amind iang }
{
    if amind > 0.0 {
        if angle(iang - 1) - 10.0 - amind < 0.0 {
            return raised(amind);
        }
        return iang;
    }
    iang
}

// How many of the scan's angles apply to a path. Stays: gcdkm and amind are the Rust's two parameters.
pub fn sang(gcdkm: f32, amind: f32) -> Result<usize, Refusal>
    ensures { result ≡ sang_of gcdkm amind }
{
    let id = step(gcdkm).ok_or(Refusal::Distance)?;
    Ok(count(amind, nangx(id - 1)))
}
