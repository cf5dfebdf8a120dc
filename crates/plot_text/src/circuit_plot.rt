// What is drawn of a circuit file: its sheet, and of each slot the profile that its rows were taken off.
ghost use Rattle.std.specs.Prelude.{◌≡◌, ◌<◌};
ghost use Rattle.plot_text.specs.CircuitPlot.{profile_of, profiles_of, plot_of};

use circuit_sheet::Sheet;
use layers::IonoState;
use refusal::Refusal;

// Fifty heights in km, and at each the square of the plasma frequency, in MHz².
// Stays: two columns, since they are the state's `htr` and `fnsq`, which are the Rust's.
#[derive(Clone, Copy, Debug, PartialEq)]
pub struct DrawnProfile {
    pub htr: [f32; 50],
    pub fnsq: [f32; 50],
}

// Of a slot that is not there nothing is drawn, whatever the profile is.
#[derive(Drop)]
pub struct Plot {
    pub sheet: Sheet,
    pub profiles: [DrawnProfile; 3],
}

fn profile_at(s: IonoState, k: usize) -> DrawnProfile
    requires { k < 3 }
    ensures { result ≡ profile_of s k }
{
    let t = profile::lecden_slot(s, k);
    let htr = t.htr;
    let fnsq = t.fnsq;
    DrawnProfile { htr, fnsq }
}

fn profiles(s: IonoState) -> [DrawnProfile; 3]
    ensures { result ≡ profiles_of s }
{
    std::array::from_fn(|k| profile_at(s, k))
}

// What is drawn of a file, or where it is turned away.
pub fn plot_of(file: &[u8]) -> Result<Plot, Refusal>
    ensures { result ≡ plot_of file.now }
{
    let c = circuit::read(file)?;
    let sheet = circuit_sheet::of_file(file)?;
    let profiles = profiles(circuit_sheet::slots(c));
    Ok(Plot { sheet, profiles })
}
