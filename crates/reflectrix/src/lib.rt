// The ionogram of a slot: its thirty rows, and the reflectrix.
#![tactic(auto)]

pub mod cell_rows;
pub mod cell_test;
mod reflectrix;
pub mod scan_angles;

ghost use Rattle.std.specs.Prelude.{◌≡◌};
ghost use Rattle.reflectrix.specs.Rows.{no_rows};

pub use reflectrix::fobby;

// The thirty rows, by columns.
// Stays: columns side by side are the Rust's ionogram, as it is lent to callers.
#[derive(Clone, Copy, Debug, PartialEq)]
pub struct Ionogram {
    // the frequency that is sounded, in MHz
    pub fvert: [f32; 30],
    // its virtual height, in km
    pub hprim: [f32; 30],
    // its true height, in km
    pub htrue: [f32; 30],
    // the factor of its deviative loss
    pub afac: [f32; 30],
    // the segment of the profile on which its true height was found; 50 where nothing was sought
    // Stays: the paper numbers a row's segment 0 to 49, and says 50 where nothing is sought.
    pub segment: [u32; 30],
}

// Every number 0: the rows of a slot that is not there.
// Stays: as `layers::zero_state`, since rows are lists.
pub fn no_rows() -> Ionogram
    ensures { result ≡ no_rows }
{
    Ionogram {
        fvert: [0.0; 30],
        hprim: [0.0; 30],
        htrue: [0.0; 30],
        afac: [0.0; 30],
        segment: [0; 30],
    }
}
