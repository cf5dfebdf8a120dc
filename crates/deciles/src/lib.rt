// How far the F2 MUF spreads about its median, as a standard deviation out of the decile table.
#![tactic(auto)]

ghost use Rattle.std.specs.Prelude.{◌≡◌, ◌<◌, ◌≤◌};
ghost use Rattle.deciles.specs.F2dis.{sunspot_row_of, j_of, i_of, icl_of, icc_of, block_of, place_of, classical_of, spread_of, f2dis_of, DeviationSays};

use refusal::Refusal;

// The next three are sums of yes-or-no numbers: no jump hangs on a test that can't be foreseen.

// 1 up to a sunspot number of 50, 3 above 100, 2 between and for NaN. A NaN is not at most 50, but
// not above it either: `ssn > 50.0` would give it the first row.
fn sunspot_row(ssn: f32) -> usize
    ensures { result ≡ sunspot_row_of ssn }
{
    let past = !(ssn <= 50.0);
    let high = past & (ssn > 100.0);
    1 + past as usize + high as usize
}

// `j`: the sunspot row, three further on at the equator and south of it.
fn row(ssn: f32, cl: f32) -> usize
    ensures { result ≡ j_of ssn cl }
{
    let south = cl <= 0.0;
    sunspot_row(ssn) + 3 * south as usize
}

// `i`: 8 for the lower decile, 0 for the upper one.
fn half(fmuf: f32, freq: f32) -> usize
    ensures { result ≡ i_of fmuf freq }
{
    let lower = freq <= fmuf;
    8 * lower as usize
}

// `icl`: the latitude band, 1 at the pole to 8 at the equator.
fn band(cl: f32) -> usize
    ensures { result ≡ icl_of cl }
{
    let icl = scalar::trunc(9.5 - scalar::abs(cl) / 10.0).clamp(1, 8);
    icl as usize
}

// `icc`: the time block, 1 to 6; none where the truncated number is below 1, which `f2dis` refuses.
pub fn time_block(abb: f32) -> Option<usize>
    ensures { result ≡ block_of (icc_of abb) }
{
    let icc = scalar::trunc(abb / 4.0 + 1.55);
    if icc > 6 {
        return Some(1);
    }
    if icc < 1 {
        return None;
    }
    Some(icc as usize)
}

// Where `f2d[icc - 1][j - 1][iz - 1]` of the Rust stands in the flat list.
// Stays: a list of any length is lent, and refused unless it has 576, so it is no array of arrays.
fn place(icc: usize, j: usize, iz: usize) -> usize
    requires { (0 < icc) × (icc ≤ 6) × (0 < j) × (j ≤ 6) × (0 < iz) × (iz ≤ 16) }
    ensures value { result ≡ place_of icc j iz }
    ensures upper_bound { result < 576 }
{
    ((icc - 1) * 6 + (j - 1)) * 16 + (iz - 1)
}

// Without a table a decile is taken to lie 15 percent of the MUF away from it.
fn classical(fmuf: f32) -> f32
    ensures { result ≡ classical_of fmuf }
{
    let sig = 0.15 * fmuf / 1.28155;
    scalar::max(sig, 0.001)
}

fn spread(fmuf: f32, decile: f32) -> f32
    ensures { result ≡ spread_of fmuf decile }
{
    let sig = scalar::abs(fmuf - decile * fmuf) / 1.28;
    scalar::max(sig, 0.001)
}

// `abb` is the point's clock, in hours of local mean time, and `clat` its latitude in radians.
// Stays: f2d, fmuf, ssn, clat, freq and abb are the Rust's own parameters, in its order.
pub fn f2dis(
    f2d: &[f32],
    fmuf: f32,
    ssn: f32,
    clat: f32,
    freq: f32,
    abb: f32,
) -> Result<f32, Refusal>
    ensures value { result ≡ f2dis_of f2d.now fmuf ssn clat freq abb }
    ensures deviation_says { DeviationSays result f2d.now fmuf ssn clat freq abb }
{
    if f2d.len() != 576 {
        return Err(Refusal::MufLists);
    }
    if f2d[0] <= 0.0 {
        return Ok(classical(fmuf));
    }
    let icc = time_block(abb).ok_or(Refusal::TimeBlock)?;
    let cl = clat * 57.29577;
    let iz = band(cl) + half(fmuf, freq);
    let j = row(ssn, cl);
    let at = place(icc, j, iz);
    Ok(spread(fmuf, f2d[at]))
}
