// Arc sine and arc tangent of an f32 by whole numbers: from the bit pattern of x to that of the answer, with no float operation between.
// specs/ says what each gives for every f32; crate `exact_arcs` proves that this is less than one unit in the last place from the exact value.
#![tactic(auto)]

ghost use Rattle.std.specs.Prelude.{◌≡◌};
ghost use Rattle.arcs.specs.Asin.{asin_of};
ghost use Rattle.arcs.specs.Atan.{atan_of};

mod arcsin;
mod arctan;

// NaN outside -1 to 1
// Stays: as `atan`, `exp` and the others, each one line; one function for them would be handed `asin_bits`, and a call of it as long.
pub fn asin(x: f32) -> f32
    ensures { result ≡ asin_of x }
{
    scalar::number(arcsin::asin_bits(scalar::bits(x)))
}

pub fn atan(x: f32) -> f32
    ensures { result ≡ atan_of x }
{
    scalar::number(arctan::atan_bits(scalar::bits(x)))
}
