// The writer of a circuit file.
ghost use Rattle.std.specs.Prelude.{◌≡◌, ◌+◌, ◌*◌, ◌≤◌, ◌<◌, length, drop, [], ◌++◌};
ghost use Rattle.records.specs.Record.{form64, Fit};
ghost use Rattle.circuit.specs.Written.{records_of, next_in, entry_of, file_of, write_answer_of, left_of};

use crate::Circuit;
use records::{Form, Kind};
use refusal::Refusal;

// How many records the file of a circuit has.
fn records(c: &Circuit) -> usize
    requires { c.now.km ≤ 5 }
    ensures { result ≡ records_of c.now }
{
    if crate::has_deciles(*c) {
        return 1 + c.km + 48;
    }
    1 + c.km
}

// Stays: no `Option`, since 0 is how the file says that no record follows.
fn next_in(n: usize, i: usize) -> usize
    requires { i < n }
    ensures { result ≡ next_in n i }
{
    if i + 1 == n {
        return 0;
    }
    i + 1
}

// A circuit that the writer takes, in a form, with the words that the form adds, room for those of five points; and its file's
// count of records.
#[derive(Clone, Copy)]
struct Draft<'a> {
    form: Form,
    circuit: &'a Circuit,
    beside: &'a [u32],
    count: usize,
    ghost fit: { Fit form },
    ghost good: { (circuit.now.km ≤ 5) × (circuit.now.shape ≤ 1) },
    ghost five: { length beside.now ≡ 5 * form.extra },
    ghost counted: { count ≡ records_of circuit.now },
}

impl<'a> Draft<'a> {
    // Record i.
    #[tactic(auto, using(crate::proofs::circuit_write::Cells::part_within, crate::proofs::circuit_write::Cells::records_most))]
    fn entry(&self, i: usize, out: &mut [u8])
        requires { (i < self.now.count) × (length out.old ≡ self.now.form.size) }
        ensures { out.new ≡ entry_of self.now.form self.now.circuit.now self.now.beside.now self.now.count i }
    {
        let next = next_in(self.count, i);
        let c = self.circuit;
        if i == 0 {
            crate::record_put::head(self.form, *c, next, out);
            return;
        }
        if i <= c.km {
            let a = 15 * (i - 1);
            let extra = self.form.extra;
            let b = extra * (i - 1);
            crate::record_put::point(next, &c.points[a..a + 15], &self.beside[b..b + extra], out);
            return;
        }
        let a = 12 * (i - (c.km + 1));
        crate::record_put::record(Kind::Deciles as usize, next, &c.deciles[a..a + 12], out);
    }

    #[tactic(auto, using(crate::proofs::circuit_write::Cells::part_within))]
    fn entries(&self, out: &mut [u8])
        requires { self.now.form.size * self.now.count ≤ length out.old }
        ensures { out.new ≡ file_of self.now.form self.now.circuit.now self.now.beside.now ++ drop (self.now.form.size * self.now.count) out.old }
    {
        let size = self.form.size;
        // Stays: i is the record's number, and `out` is written by parts: of what `chunks_exact_mut` leaves under `enumerate` a proof
        // knows the lengths alone, as in `cell_rows` of crate `reflectrix`.
        for i in 0..self.count {
            self.entry(i, &mut out[size * i..size * i + size]);
        }
    }
}

// The writer, in any form: how many bytes the file has.
// Stays: `o`, `c`, `beside` and `out` as a caller has them, before the tests that make of them what may be written.
pub fn write_form(o: Form, c: Circuit, beside: &[u32], out: &mut [u8]) -> Result<usize, Refusal>
    requires { Fit o × (length beside.now ≡ 5 * o.extra) }
    ensures value { result ≡ write_answer_of o c out.old }
    ensures out_after { out.new ≡ left_of o c beside.now out.old }
{
    if !(1..=5).contains(&c.km) || c.shape > 1 {
        return Err(Refusal::RecordZero);
    }
    let n = records(&c);
    let length = o.size * n;
    if out.len() < length {
        return Err(Refusal::Length);
    }
    let draft = Draft {
        form: o,
        circuit: &c,
        beside,
        count: n,
    };
    draft.entries(out);
    Ok(length)
}

// Writes a circuit's file into the cells lent, and answers its length in bytes. Cells past its end, and all cells at a refusal, stay.
pub fn write(c: Circuit, out: &mut [u8]) -> Result<usize, Refusal>
    ensures value { result ≡ write_answer_of form64 c out.old }
    ensures out_after { out.new ≡ left_of form64 c [] out.old }
{
    write_form(records::form64(), c, &[], out)
}
