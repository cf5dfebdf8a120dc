// The circuit file that carries F2M3: records of 128 bytes, the first 64 of each as in the paper's form but for the kind of
// record 0, and F2M3 at byte 64 of a point. F2M3 stands beside the circuit, a word for each of five points, by its bits.
ghost use Rattle.std.specs.Prelude.{◌≡◌, ◌+◌, ◌*◌, ◌≤◌, length};
ghost use Rattle.records.specs.Record.{record_at};
ghost use Rattle.records.specs.Chain.{chain_of};
ghost use Rattle.circuit.specs.Written.{write_answer_of, left_of};
ghost use Rattle.records.specs.Form128.{form128};
ghost use Rattle.circuit.specs.Wide.{wide_of};

use crate::Circuit;
use records::record_chain::Chain;
use refusal::Refusal;

// F2M3 that is read is zero past the km points.
#[derive(Clone, Copy, Debug, PartialEq, Eq)]
pub struct WideCircuit {
    pub circuit: Circuit,
    pub f2m3: [u32; 5],
}

// The chain of a file, or where it is turned away.
fn follow(file: &[u8]) -> Result<Chain, Refusal>
    ensures { result ≡ chain_of form128 file.now }
{
    records::record_chain::follow_form(records::wide_form::form128(), file)
}

// Record n, as its part of the file.
// Stays: beside `record` of `circuit`. The paper names that part as `&file[64 * n..64 * n + 64]`, so the size is a literal in each; all
// that reads them is shared.
fn record(file: &[u8], n: usize) -> &[u8]
    requires { 128 * n + 128 ≤ length file.now }
    ensures { result.now ≡ record_at form128 file.now n }
{
    &file[128 * n..128 * n + 128]
}

// The circuit of a file and its F2M3, the word after the fifteen of a point, or where it is turned away. Records off the chain
// are not looked at.
pub fn read(file: &[u8]) -> Result<WideCircuit, Refusal>
    ensures { result ≡ wide_of file.now }
{
    let c = follow(file)?;
    let circuit = crate::read_along(file, c, record);
    let f2m3 = crate::numbers_of(file, &c.order[1..1 + circuit.km], 15, 1, record);
    Ok(WideCircuit { circuit, f2m3 })
}

// Writes the file of a circuit and the F2M3 of its points into the cells lent, and answers its length in bytes. Cells past its
// end, and all cells at a refusal, stay.
pub fn write(c: Circuit, f2m3: [u32; 5], out: &mut [u8]) -> Result<usize, Refusal>
    ensures value { result ≡ write_answer_of form128 c out.old }
    ensures out_after { out.new ≡ left_of form128 c f2m3 out.old }
{
    crate::circuit_write::write_form(records::wide_form::form128(), c, &f2m3, out)
}
