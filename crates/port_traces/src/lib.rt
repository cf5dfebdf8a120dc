// Two traces held against one another, for callers in any language: words in, words out. Each function answers 0, or the number
// of its refusal, and then leaves everything lent as it was.
// Stays: lists side by side, and words lent for what is answered, as callers in C have them.
#![tactic(auto)]

ghost use Rattle.std.specs.Prelude.{◌≡◌};
ghost use Rattle.refusal.specs.Number.{answer_number};
ghost use Rattle.port_traces.specs.Exports.{port_compare, port_trace};

use refusal::Refusal;

#[tactic(auto, unfolding(crate::specs::Exports::port_compare))]
fn compare_into(
    a: &[u32],
    ah: &[u32],
    b: &[u32],
    bh: &[u32],
    khz: &mut [u32],
    which: &mut [u32],
    difference: &mut [i64],
    out: &mut [u32],
) -> Result<(), Refusal>
    ensures value { answer_number result ≡ (port_compare a.now ah.now b.now bh.now khz.old which.old difference.old out.old).number }
    ensures khz_after { khz.new ≡ (port_compare a.now ah.now b.now bh.now khz.old which.old difference.old out.old).khz }
    ensures which_after { which.new ≡ (port_compare a.now ah.now b.now bh.now khz.old which.old difference.old out.old).which }
    ensures difference_after { difference.new ≡ (port_compare a.now ah.now b.now bh.now khz.old which.old difference.old out.old).difference }
    ensures out_after { out.new ≡ (port_compare a.now ah.now b.now bh.now khz.old which.old difference.old out.old).out }
{
    if out.is_empty() {
        return Err(Refusal::Length);
    }
    let count = traces::compare(a, ah, b, bh, khz, which, difference);
    answer_words::count_into(count, out)
}

// The kHz and heights of the first trace, a and ah, and of the second, b and bh; the lines into three lists; out: their count.
pub fn port_compare(
    a: &[u32],
    ah: &[u32],
    b: &[u32],
    bh: &[u32],
    khz: &mut [u32],
    which: &mut [u32],
    difference: &mut [i64],
    out: &mut [u32],
) -> u32
    ensures value { result ≡ (port_compare a.now ah.now b.now bh.now khz.old which.old difference.old out.old).number }
    ensures khz_after { khz.new ≡ (port_compare a.now ah.now b.now bh.now khz.old which.old difference.old out.old).khz }
    ensures which_after { which.new ≡ (port_compare a.now ah.now b.now bh.now khz.old which.old difference.old out.old).which }
    ensures difference_after { difference.new ≡ (port_compare a.now ah.now b.now bh.now khz.old which.old difference.old out.old).difference }
    ensures out_after { out.new ≡ (port_compare a.now ah.now b.now bh.now khz.old which.old difference.old out.old).out }
{
    refusal::answer_number(&compare_into(a, ah, b, bh, khz, which, difference, out))
}

#[tactic(auto, unfolding(crate::specs::Exports::port_trace))]
fn trace_into(rows: &[u32], khz: &mut [u32], height: &mut [u32]) -> Result<(), Refusal>
    ensures value { answer_number result ≡ (port_trace rows.now khz.old height.old).number }
    ensures khz_after { khz.new ≡ (port_trace rows.now khz.old height.old).khz }
    ensures height_after { height.new ≡ (port_trace rows.now khz.old height.old).height }
{
    if rows.len() < 60 || khz.len() < 30 || height.len() < 30 {
        return Err(Refusal::Length);
    }
    let fvert = port_state::floats(rows, 0);
    let hprim = port_state::floats(rows, 30);
    let trace = traces::computed_trace::trace_of(fvert, hprim)?;
    khz[..30].copy_from_slice(&trace.khz);
    height[..30].copy_from_slice(&trace.height);
    Ok(())
}

// rows: fvert and hprim of thirty rows, 60 words, with which an ionogram's 150 begin; khz and height: 30 words each.
pub fn port_trace(rows: &[u32], khz: &mut [u32], height: &mut [u32]) -> u32
    ensures value { result ≡ (port_trace rows.now khz.old height.old).number }
    ensures khz_after { khz.new ≡ (port_trace rows.now khz.old height.old).khz }
    ensures height_after { height.new ≡ (port_trace rows.now khz.old height.old).height }
{
    refusal::answer_number(&trace_into(rows, khz, height))
}
