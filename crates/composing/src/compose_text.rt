// The circuit that a text says, line by line, or the first line with something wrong.
mod given;

ghost use Rattle.std.specs.Prelude.{◌≡◌, IfOk, IfErr, Ok, Err};
ghost use Rattle.composing.specs.Draft.{no_draft, is_shape, with_path, with_point, with_deciles, with_row, with_line, at_line, is_whole, ended_draft, composed_of};

use crate::compose_line::{Fault, LineKind, Row, Wrong};
use circuit::Circuit;

// What the lines say from that of the path on: the circuit so far, and the lines of deciles so far.
// Stays: a count beside the circuit, whose words are flat and in fixed memory, as callers in C have them.
#[derive(Clone, Copy, Debug, PartialEq, Eq)]
pub struct Draft {
    pub circuit: Circuit,
    pub twelves: usize,
}

#[tactic(auto, unfolding(crate::specs::Draft::is_shape))]
fn is_shape(b: u32) -> bool
    ensures { result ≡ is_shape b }
{
    b == 0 || b == 0x3f80_0000
}

// Stays: `draft` and `values` travel together through the three kinds of line, which test them in orders of their own; a record of
// both would be made for one call and be no plainer.
#[tactic(auto, unfolding(crate::specs::Draft::with_path))]
fn with_path(draft: Option<Draft>, values: [u32; 15]) -> Result<Draft, Fault>
    ensures { result ≡ with_path draft values }
{
    if draft.is_some() {
        return Err(Fault::SecondPath);
    }
    if !is_shape(values[0]) {
        return Err(Fault::BadShape);
    }
    Ok(given::path(values))
}

#[tactic(auto, unfolding(crate::specs::Draft::with_point))]
fn with_point(draft: Option<Draft>, values: [u32; 15]) -> Result<Draft, Fault>
    ensures { result ≡ with_point draft values }
{
    let d = draft.ok_or(Fault::NoPathYet)?;
    if d.twelves != 0 {
        return Err(Fault::PointTooLate);
    }
    if d.circuit.km >= 5 {
        return Err(Fault::TooManyPoints);
    }
    Ok(given::point(d, values))
}

#[tactic(auto, unfolding(crate::specs::Draft::with_deciles))]
fn with_deciles(draft: Option<Draft>, values: [u32; 15]) -> Result<Draft, Fault>
    ensures { result ≡ with_deciles draft values }
{
    let d = draft.ok_or(Fault::NoPointYet)?;
    if d.circuit.km == 0 {
        return Err(Fault::NoPointYet);
    }
    if d.twelves >= 48 {
        return Err(Fault::TooManyDeciles);
    }
    Ok(given::deciles(d, values))
}

#[tactic(auto, unfolding(crate::specs::Draft::with_row))]
fn with_row(draft: Option<Draft>, r: Row) -> Result<Draft, Fault>
    ensures { result ≡ with_row draft r }
{
    match r.kind {
        LineKind::Path => with_path(draft, r.values),
        LineKind::Point => with_point(draft, r.values),
        LineKind::Deciles => with_deciles(draft, r.values),
    }
}

// One line more. A line without a word says nothing, and the draft is not copied for it.
#[tactic(auto, unfolding(crate::specs::Draft::with_line))]
fn add_line(draft: &mut Option<Draft>, line: &[u8]) -> Result<(), Fault>
    ensures added { IfOk result (λ _. with_line draft.old line.now ≡ Ok draft.new) }
    ensures wrong { IfErr result (λ f. with_line draft.old line.now ≡ Err f) }
{
    if let Some(r) = crate::compose_line::read_line(line)? {
        *draft = Some(with_row(*draft, r)?);
    }
    Ok(())
}

#[tactic(auto, unfolding(crate::specs::Draft::is_whole))]
fn is_whole(twelves: usize) -> bool
    ensures { result ≡ is_whole twelves }
{
    twelves == 0 || twelves == 48
}

#[tactic(auto, unfolding(crate::specs::Draft::ended_draft))]
fn ended(draft: Option<Draft>) -> Result<Circuit, Fault>
    ensures { result ≡ ended_draft draft }
{
    let d = draft.ok_or(Fault::NoPath)?;
    if d.circuit.km == 0 {
        return Err(Fault::NoPoint);
    }
    if !is_whole(d.twelves) {
        return Err(Fault::TooFewDeciles);
    }
    Ok(d.circuit)
}

// What is wrong, and in which line.
fn at_line<T>(line: usize, answer: Result<T, Fault>) -> Result<T, Wrong>
    ensures { result ≡ at_line line answer }
{
    answer.map_err(|fault| Wrong { line, fault })
}

pub fn compose(text: &[u8]) -> Result<Circuit, Wrong>
    ensures { result ≡ composed_of text.now }
{
    let mut draft = None;
    // Stays: not by `enumerate`, since a fault of the whole text, found after the last line, is said of the next number.
    let mut number = 1;
    for line in text.split_inclusive(|b| *b == b'\n') {
        at_line(number, add_line(&mut draft, line))?;
        number += 1;
    }
    at_line(number, ended(draft))
}
