// The reflectrix: for each angle of the scan thirty cells, the oblique frequency of each row in
// whole kHz.
// Stays: ion and nang are the Rust's; cells are lent, thirty an angle one after the other, as a
// caller in C has them.
ghost use Rattle.std.specs.Prelude.{◌≡◌, ◌*◌, ◌≤◌, length};
ghost use Rattle.reflectrix.specs.Fobby.{angles_into, cells_after, fobby_outcome};

use crate::Ionogram;
use crate::cell_rows::Rows;
use constants::RZ;
use refusal::Refusal;
use std::array::from_fn;

// The Earth's radius times the cosine of each angle of the scan.
static RCOSD: [f32; 40] = [
    6370.0, 6369.7573, 6369.0298, 6366.1196, 6361.27, 6354.4834, 6345.7603, 6335.1045, 6308.0073,
    6273.225, 6230.8003, 6180.7837, 6123.237, 6058.23, 5985.842, 5906.161, 5819.284, 5725.3184,
    5624.376, 5516.5815, 5402.0664, 5280.9697, 5153.4385, 5019.6284, 4879.703, 4733.8325,
    4582.1943, 4424.974, 4262.362, 4094.5571, 3921.7637, 3744.1924, 3562.0588, 3184.9998,
    2692.0781, 2178.6685, 1648.6775, 1106.1392, 555.1825, 1.1121886,
];

// The rows are laid out once for all angles.
fn angles(ion: Ionogram, nang: usize, cells: &mut [i32])
    requires { (nang ≤ 40) × (30 * nang ≤ length cells.old) }
    ensures { cells.new ≡ angles_into ion cells.old nang }
{
    let htrue = crate::cell_rows::padded(ion.htrue);
    let radii = from_fn(|i| RZ + htrue[i]);
    let rows = Rows::new(crate::cell_rows::padded(ion.fvert), radii);
    rows.scan(&RCOSD, nang, cells);
}

// Cells past the last angle stay; a refused call leaves every cell.
pub fn fobby(ion: Ionogram, nang: usize, cells: &mut [i32]) -> Result<(), Refusal>
    ensures value { result ≡ fobby_outcome nang cells.old }
    ensures cells_after { cells.new ≡ cells_after ion nang cells.old }
{
    if nang > 40 || cells.len() < 30 * nang {
        return Err(Refusal::Reflectrix);
    }
    angles(ion, nang, cells);
    Ok(())
}
