// The form of a circuit file that carries F2M3.
ghost use Rattle.std.specs.Prelude.{◌≡◌};
ghost use Rattle.records.specs.Form128;

use crate::{Form, Kind};

// The form of these files.
pub fn form128() -> Form
    ensures { result ≡ Rattle.records.specs.Form128.form128 }
{
    Form {
        size: 128,
        first: Kind::WideHead as usize,
        extra: 1,
    }
}
