// Two traces held against one another: every kHz of either, rising, with the difference of the heights where both have it.
#![tactic(auto)]

pub mod computed_trace;
pub mod trace_lines;

ghost use Rattle.std.specs.Prelude.{◌≡◌, ◌+◌, ◌≤◌, length};
ghost use Rattle.traces.specs.Trace.{rises as rises_of, fit as fit_of, TraceRows};
ghost use Rattle.traces.specs.Lines.{which_number, trace_lines};
ghost use Rattle.traces.specs.Compared.{column, ready as ready_of, compared_of};

use refusal::Refusal;

// Whether each number is below the next.
// Stays: as `rises` of `tariff`, where it is said why.
pub fn rises(khz: &[u32]) -> bool
    ensures { result ≡ rises_of khz.now }
{
    khz.is_sorted_by(|below, next| *below < *next)
}

// Stays: a trace is two lists, `khz` and `height`, as callers in C lend it and as a computed ionogram has it.
// Whether the two lists are a trace.
fn fit(khz: &[u32], height: &[u32]) -> bool
    ensures { result ≡ fit_of khz.now height.now }
{
    khz.len() == height.len() && khz.len() <= 512 && rises(khz)
}

// The lines of two traces into three lists, and how many there are.
// Stays: the lists are those that callers in C lend to `compare`.
fn lines(
    a: &[u32],
    ah: &[u32],
    b: &[u32],
    bh: &[u32],
    khz: &mut [u32],
    which: &mut [u32],
    difference: &mut [i64],
) -> usize
    requires { TraceRows a.now ah.now × TraceRows b.now bh.now × (length a.now ≤ 512) × (length b.now ≤ 512) × (length a.now + length b.now ≤ length khz.old) × (length a.now + length b.now ≤ length which.old) × (length a.now + length b.now ≤ length difference.old) }
    ensures value { result ≡ length (trace_lines a.now ah.now b.now bh.now) }
    ensures khz_after { khz.new ≡ column (λ l. l.khz) (trace_lines a.now ah.now b.now bh.now) khz.old }
    ensures which_after { which.new ≡ column (λ l. which_number l.which) (trace_lines a.now ah.now b.now bh.now) which.old }
    ensures difference_after { difference.new ≡ column (λ l. l.difference) (trace_lines a.now ah.now b.now bh.now) difference.old }
{
    // Stays: a merge steps along two traces by turns, so there is no one iterator to follow.
    let mut i: usize = 0;
    let mut j: usize = 0;
    let mut n: usize = 0;
    while i + j < a.len() + b.len() {
        let l = crate::trace_lines::next(&a[i..], &ah[i..], &b[j..], &bh[j..]);
        khz[n] = l.khz;
        which[n] = u32::from(l.which);
        difference[n] = l.difference;
        i += l.which.of_first();
        j += l.which.of_second();
        n += 1;
    }
    n
}

// Whether both are traces, and each list lent has a cell for every row of both.
// Stays: the lists are those that callers in C lend to `compare`.
fn ready(
    a: &[u32],
    ah: &[u32],
    b: &[u32],
    bh: &[u32],
    khz: &[u32],
    which: &[u32],
    difference: &[i64],
) -> bool
    ensures { result ≡ ready_of a.now ah.now b.now bh.now khz.now which.now difference.now }
{
    if !fit(a, ah) || !fit(b, bh) {
        return false;
    }
    let rows = a.len() + b.len();
    rows <= khz.len() && rows <= which.len() && rows <= difference.len()
}

// The lines of two traces, a and b their kHz, ah and bh their heights in tenths of a kilometre, into three lists that are lent; how many.
// Stays: the lists a, ah, b, bh, and khz, which and difference for the lines, are what callers in C lend.
// Cells past the last line, and all cells at a refusal, stay.
pub fn compare(
    a: &[u32],
    ah: &[u32],
    b: &[u32],
    bh: &[u32],
    khz: &mut [u32],
    which: &mut [u32],
    difference: &mut [i64],
) -> Result<usize, Refusal>
    ensures value { result ≡ (compared_of a.now ah.now b.now bh.now khz.old which.old difference.old).answer }
    ensures khz_after { khz.new ≡ (compared_of a.now ah.now b.now bh.now khz.old which.old difference.old).khz }
    ensures which_after { which.new ≡ (compared_of a.now ah.now b.now bh.now khz.old which.old difference.old).which }
    ensures difference_after { difference.new ≡ (compared_of a.now ah.now b.now bh.now khz.old which.old difference.old).difference }
{
    if !ready(a, ah, b, bh, khz, which, difference) {
        return Err(Refusal::Traces);
    }
    Ok(lines(a, ah, b, bh, khz, which, difference))
}
