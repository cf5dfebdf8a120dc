// Sine and cosine of an f32 by whole numbers: from the bit pattern of x to that of the answer, with no float operation between.
// specs/ says what each gives for every f32; crate `exact_waves` proves that this is less than one unit in the last place from the exact value.
#![tactic(auto)]

pub mod wave_answers;

ghost use Rattle.std.specs.Prelude.{◌≡◌};
ghost use Rattle.waves.specs.SinCos.{sin_of, cos_of};

mod whole;

// NaN outside -4 to 4
// Stays: as `cos`, `exp` and the others, each one line; one function for them would be handed `sin_bits`, and a call of it as long.
pub fn sin(x: f32) -> f32
    ensures { result ≡ sin_of x }
{
    scalar::number(whole::sin_bits(scalar::bits(x)))
}

pub fn cos(x: f32) -> f32
    ensures { result ≡ cos_of x }
{
    scalar::number(whole::cos_bits(scalar::bits(x)))
}
