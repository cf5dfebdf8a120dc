// The scalars for C and Rust callers: `rt lib` writes the archive that they link.
// A NaN that is returned has no particular sign or payload.
#![tactic(auto)]

ghost use Rattle.std.specs.Prelude.{◌≡◌};
ghost use Rattle.scalar.specs.Scalar.{min_of, max_of, trunc_of};
ghost use Rattle.scalar.specs.Root.{sqrt_of};
ghost use Rattle.exponential.specs.Exp.{exp_of};
ghost use Rattle.logarithm.specs.Ln.{ln_of};
ghost use Rattle.waves.specs.SinCos.{sin_of, cos_of};
ghost use Rattle.arcs.specs.Asin.{asin_of};
ghost use Rattle.arcs.specs.Atan.{atan_of};

#[unsafe(no_mangle)]
pub extern "C" fn scalar_sqrt(x: f32) -> f32
    ensures { result ≡ sqrt_of x }
{
    scalar::sqrt(x)
}

#[unsafe(no_mangle)]
pub extern "C" fn scalar_min(a: f32, b: f32) -> f32
    ensures { result ≡ min_of a b }
{
    scalar::min(a, b)
}

#[unsafe(no_mangle)]
pub extern "C" fn scalar_max(a: f32, b: f32) -> f32
    ensures { result ≡ max_of a b }
{
    scalar::max(a, b)
}

#[unsafe(no_mangle)]
pub extern "C" fn scalar_trunc(x: f32) -> i32
    ensures { result ≡ trunc_of x }
{
    scalar::trunc(x)
}

#[unsafe(no_mangle)]
pub extern "C" fn scalar_exp(x: f32) -> f32
    ensures { result ≡ exp_of x }
{
    exponential::exp(x)
}

#[unsafe(no_mangle)]
pub extern "C" fn scalar_ln(x: f32) -> f32
    ensures { result ≡ ln_of x }
{
    logarithm::ln(x)
}

// NaN outside -4 to 4, and so for the cosine.
#[unsafe(no_mangle)]
pub extern "C" fn scalar_sin(x: f32) -> f32
    ensures { result ≡ sin_of x }
{
    waves::sin(x)
}

#[unsafe(no_mangle)]
pub extern "C" fn scalar_cos(x: f32) -> f32
    ensures { result ≡ cos_of x }
{
    waves::cos(x)
}

#[unsafe(no_mangle)]
pub extern "C" fn scalar_asin(x: f32) -> f32
    ensures { result ≡ asin_of x }
{
    arcs::asin(x)
}

#[unsafe(no_mangle)]
pub extern "C" fn scalar_atan(x: f32) -> f32
    ensures { result ≡ atan_of x }
{
    arcs::atan(x)
}
