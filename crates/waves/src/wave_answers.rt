// Sine and cosine with a refusal: 13 outside -4 to 4.
ghost use Rattle.std.specs.Prelude.{◌≡◌};
ghost use Rattle.scalar.specs.F32.{◌<f◌, ◌>f◌, negf};
ghost use Rattle.scalar.specs.Literals.{f4};
ghost use Rattle.waves.specs.Answers.{unless_outside, sin_answer, cos_answer};

use refusal::Refusal;

// The value of an angle from -4 to 4, or of a NaN.
fn unless_outside(x: f32, value: f32) -> Result<f32, Refusal>
    ensures { result ≡ unless_outside (x <f negf f4) (x >f f4) value }
{
    if x < -4.0 || x > 4.0 {
        return Err(Refusal::Angle);
    }
    Ok(value)
}

#[tactic(auto, unfolding(crate::specs::Answers::sin_answer))]
pub fn sin_or_refuse(x: f32) -> Result<f32, Refusal>
    ensures { result ≡ sin_answer x }
{
    unless_outside(x, crate::sin(x))
}

#[tactic(auto, unfolding(crate::specs::Answers::cos_answer))]
pub fn cos_or_refuse(x: f32) -> Result<f32, Refusal>
    ensures { result ≡ cos_answer x }
{
    unless_outside(x, crate::cos(x))
}
