// The circuit file: a chain of records that holds the numbers of one circuit; in the paper's form a record has 64 bytes. Every
// number is held by its bits, so that a NaN keeps its payload. What takes a record, or a form, is open to the readers of other
// forms.
#![tactic(auto)]

pub mod circuit_write;
mod numbers;
pub mod record_put;
pub mod wide_circuit;

ghost use Rattle.std.specs.Prelude.{◌≡◌, ◌+◌, ◌*◌, ◌≤◌, ◌<◌, length, map, not};
ghost use Rattle.std.specs.Float.Ieee.{of_bits};
ghost use Rattle.std.specs.Float.{binary32};
ghost use Rattle.records.specs.Record.{form64, record_at, all_zero};
ghost use Rattle.circuit.specs.Read.{read_of};
ghost use Rattle.circuit.specs.Point.{point_number};

pub use numbers::{all_zero, nothing, numbers_of, read_along};
use records::record_chain::follow;
use refusal::Refusal;

// A point is fifteen words: fi, yi, hi and Es fs, three each, hs, clat, clck. The words past the km points are no part of the
// circuit: the reader leaves them zero, the writer does not look at them.
// Stays: `shape` is a number, as `km` is: callers in C hand any to the writer, which refuses what is none by its number. The words
// are arrays beside their counts, as the file and callers in C have them, in fixed memory.
#[derive(Clone, Copy, Debug, PartialEq, Eq)]
pub struct Circuit {
    pub km: usize,
    pub shape: usize,
    pub gcd: u32,
    pub gcdkm: u32,
    pub amind: u32,
    pub ssn: u32,
    pub points: [u32; 75],
    pub deciles: [u32; 576],
}

// Record n, as its part of the file.
fn record(file: &[u8], n: usize) -> &[u8]
    requires { 64 * n + 64 ≤ length file.now }
    ensures { result.now ≡ record_at form64 file.now n }
{
    &file[64 * n..64 * n + 64]
}

// The circuit of a file, or where it is turned away. Records off the chain are not looked at.
pub fn read(file: &[u8]) -> Result<Circuit, Refusal>
    ensures { result ≡ read_of form64 file.now }
{
    let c = follow(file)?;
    Ok(read_along(file, c, record))
}

// Whether a circuit has deciles to write: some number of the 576 is not +0.
pub fn has_deciles(c: Circuit) -> bool
    ensures { result ≡ not (all_zero c.deciles) }
{
    !numbers::all_zero(&c.deciles)
}

// Word j of point i, as the number whose bits it is.
// Stays: i and j are the definition's two numbers; a record of them, made for one call, is no plainer. That i is below 5 and j below 15
// is asked, since `circuit_numbers` names them as literals or makes them of the index of `from_fn`.
pub fn point_number(points: &[u32; 75], i: usize, j: usize) -> f32
    requires { (i < 5) × (j < 15) }
    ensures { result ≡ point_number points.now i j }
{
    scalar::number(points[15 * i + j])
}

// The flat decile table. It stays as it is made where every decile is +0, as without records of kind 3.
pub fn decile_table(c: Circuit) -> [f32; 576]
    ensures { result ≡ map (of_bits binary32) c.deciles }
{
    if numbers::all_zero(&c.deciles) {
        return [0.0; 576];
    }
    c.deciles.map(scalar::number)
}
