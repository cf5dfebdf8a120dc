// The numbers of a circuit, read along its chain in a file of any form: the caller says which part of the file a record is.
ghost use Rattle.std.specs.Prelude.{◌≡◌, Ok, ℕ, List, ◌+◌, ◌*◌, ◌≤◌, ◌<◌, length, get_or};
ghost use Rattle.records.specs.declared.Form.{Form};
ghost use Rattle.records.specs.Record.{Fit, all_zero};
ghost use Rattle.records.specs.Chain.{chain_of, padded};
ghost use Rattle.circuit.specs.Read.{Parts, RecordsFound, numbers_of, circuit_by, circuit_of, no_circuit};

use crate::Circuit;
use records::record_chain::Chain;

// Whether every word is +0.
// Stays: this and the one for bytes (`records`) are each one call of the library's method; one over both types would have to name its
// elements' zero by a trait.
pub fn all_zero(s: &[u32]) -> bool
    ensures { result ≡ all_zero s.now }
{
    s.iter().all(|w| *w == 0)
}

// Of each record of a list the `width` words after its first `skip`, one record after the other, and zeros after them.
// Stays: a caller states its records, the two numbers, and how a record is found; a record of these, made for one call, is no plainer.
pub fn numbers_of<const N: usize, F: Fn(&[u8], usize) -> &[u8] + Copy>(
    file: &[u8],
    records: &[usize],
    skip: usize,
    width: usize,
    part: F,
) -> [u32; N]
    requires room { width * length records.now ≤ N }
    requires found { (o : Form) × RecordsFound (F.pre part) (F.post part) o file.now records.now (skip + width) }
    ensures { (o : Form) → RecordsFound (F.pre part) (F.post part) o file.now records.now (skip + width) → result ≡ padded N (numbers_of o file.now records.now 0 skip width (length records.now)) }
{
    let mut out = [0u32; N];
    let words = &mut out[..];
    for (i, &n) in records.iter().enumerate() {
        records::words(
            part(file, n),
            skip,
            &mut words[width * i..width * i + width],
        );
    }
    out
}

// The numbers of record 0, with the words of the points and the deciles.
fn joined(head: &[u8], points: [u32; 75], deciles: [u32; 576]) -> Circuit
    requires { 64 ≤ length head.now }
    ensures { result ≡ circuit_by head.now points deciles }
{
    Circuit {
        km: records::byte(head, 4),
        shape: records::byte(head, 5),
        gcd: records::word(head, 8),
        gcdkm: records::word(head, 12),
        amind: records::word(head, 16),
        ssn: records::word(head, 20),
        points,
        deciles,
    }
}

// The circuit of a file along its chain c, each record by the part of the file that is its own.
// Stays: the file beside its chain c, which is numbers alone, copied and shown without it; a record of both, made for this one
// call, is no plainer.
pub fn read_along<F: Fn(&[u8], usize) -> &[u8] + Copy>(file: &[u8], c: Chain, part: F) -> Circuit
    requires { (o : Form) × Fit o × (chain_of o file.now ≡ Ok c) × Parts (F.pre part) (F.post part) o }
    ensures { (o : Form) → Fit o → chain_of o file.now ≡ Ok c → Parts (F.pre part) (F.post part) o → result ≡ circuit_of o file.now c }
{
    let head = part(file, 0);
    let km = records::byte(head, 4);
    let points = numbers_of(file, &c.order[1..1 + km], 0, 15, part);
    let deciles = numbers_of(file, &c.order[1 + km..c.count], 0, 12, part);
    joined(head, points, deciles)
}

// The circuit before anything is read.
pub fn nothing() -> Circuit
    ensures { result ≡ no_circuit }
{
    Circuit {
        km: 0,
        shape: 0,
        gcd: 0,
        gcdkm: 0,
        amind: 0,
        ssn: 0,
        points: [0; 75],
        deciles: [0; 576],
    }
}
