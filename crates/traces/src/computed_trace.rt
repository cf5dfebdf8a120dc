// A computed ionogram's rows as a trace.
ghost use Rattle.std.specs.Prelude.{◌≡◌, cond, Ok, Err};
ghost use Rattle.figures.specs.Nearest.{times_of};
ghost use Rattle.traces.specs.Computed.{fit_number, fit_column_of, trace_of};

use refusal::Refusal;

// A trace of thirty rows.
// Stays: two columns, as callers in C lend a trace, and as the ionogram that it is made of has them.
#[derive(Clone, Copy, Debug, PartialEq, Eq)]
pub struct ComputedTrace {
    pub khz: [u32; 30],
    // in tenths of a kilometre
    pub height: [u32; 30],
}

// k times a number, rounded; refused where it is below zero or its multiple not a u32.
fn number(v: f32, k: u32) -> Result<u32, Refusal>
    ensures { result ≡ cond (fit_number k v) (Ok (times_of k v)) (Err Refusal.Traces) }
{
    if v < 0.0 {
        return Err(Refusal::Traces);
    }
    let n = figures::times(v, k);
    if n >= 0x1_0000_0000 {
        return Err(Refusal::Traces);
    }
    Ok(n as u32)
}

// The numbers of a column, up to the first that is refused.
// Stays: an array's `try_map` takes twice the time.
fn scaled(x: &[f32; 30], k: u32) -> Result<[u32; 30], Refusal>
    ensures { result ≡ fit_column_of k x.now }
{
    let mut out = [0; 30];
    for i in 0..30 {
        let n = number(x[i], k)?;
        out[i] = n;
    }
    Ok(out)
}

// A computed ionogram's thirty frequencies in MHz and virtual heights in km, as a trace.
pub fn trace_of(fvert: [f32; 30], hprim: [f32; 30]) -> Result<ComputedTrace, Refusal>
    ensures { result ≡ trace_of fvert hprim }
{
    let khz = scaled(&fvert, 1000)?;
    let height = scaled(&hprim, 10)?;
    if !crate::rises(&khz) {
        return Err(Refusal::Traces);
    }
    Ok(ComputedTrace { khz, height })
}
