// The numbers of a line put into a circuit.
ghost use Rattle.std.specs.Prelude.{◌≡◌, ◌<◌};
ghost use Rattle.composing.specs.Draft.{shape_in, given_path, given_point, given_deciles};

use crate::compose_text::Draft;
use circuit::Circuit;

#[tactic(auto, unfolding(crate::specs::Draft::shape_in))]
fn shape_in(b: u32) -> usize
    ensures { result ≡ shape_in b }
{
    usize::from(b != 0)
}

pub fn path(values: [u32; 15]) -> Draft
    ensures { result ≡ given_path values }
{
    let circuit = Circuit {
        shape: shape_in(values[0]),
        gcd: values[1],
        gcdkm: values[2],
        amind: values[3],
        ssn: values[4],
        ..circuit::nothing()
    };
    Draft {
        circuit,
        twelves: 0,
    }
}

pub fn point(mut d: Draft, values: [u32; 15]) -> Draft
    requires { d.circuit.km < 5 }
    ensures { result ≡ given_point d values }
{
    let at = 15 * d.circuit.km;
    d.circuit.points[at..at + 15].copy_from_slice(&values);
    d.circuit.km += 1;
    d
}

pub fn deciles(mut d: Draft, values: [u32; 15]) -> Draft
    requires { d.twelves < 48 }
    ensures { result ≡ given_deciles d values }
{
    let at = 12 * d.twelves;
    d.circuit.deciles[at..at + 12].copy_from_slice(&values[..12]);
    d.twelves += 1;
    d
}
