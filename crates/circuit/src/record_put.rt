// One record of a circuit file, put into its part of the file.
ghost use Rattle.std.specs.Prelude.{◌≡◌, ◌+◌, ◌*◌, ◌≤◌, length, ◌++◌};
ghost use Rattle.records.specs.Record.{Fit};
ghost use Rattle.circuit.specs.Bytes.{half_of, word_bytes, bytes_of, record_of, head_of};

use crate::Circuit;
use records::{Form, Kind};

fn half(n: usize) -> [u8; 2]
    ensures { result ≡ half_of n }
{
    ((n % 0x1_0000) as u16).to_le_bytes()
}

fn words(ws: &[u32], out: &mut [u8])
    requires { length out.old ≡ 4 * length ws.now }
    ensures { out.new ≡ bytes_of ws.now }
{
    for (i, w) in ws.iter().enumerate() {
        out[4 * i..4 * i + 4].copy_from_slice(&w.to_le_bytes());
    }
}

// A record: its kind, the index of the next, and the words `ws`, put into the bytes `out` of the file.
// Stays: the kind is a number, since a form may give record 0 any.
pub fn record(kind: usize, next: usize, ws: &[u32], out: &mut [u8])
    requires { 4 + 4 * length ws.now ≤ length out.old }
    ensures { out.new ≡ record_of (length out.old) kind next ws.now }
{
    let end = 4 + 4 * ws.len();
    out[0..2].copy_from_slice(&half(kind));
    out[2..4].copy_from_slice(&half(next));
    words(ws, &mut out[4..end]);
    out[end..].fill(0);
}

// A point: its fifteen words `ws`, and after them those that the form adds.
// Stays: next and out, the record's link and its part of the file, are of each record, and ws and extra are no one list.
pub fn point(next: usize, ws: &[u32], extra: &[u32], out: &mut [u8])
    requires { (length ws.now ≡ 15) × (64 + 4 * length extra.now ≤ length out.old) }
    ensures { out.new ≡ record_of (length out.old) 2 next (ws.now ++ extra.now) }
{
    record(Kind::Point as usize, next, ws, out);
    words(extra, &mut out[64..64 + 4 * extra.len()]);
}

// km and shape are the low bytes of the first word.
// Stays: `o`, `c` and `out` as the writer has them; what is asked of km and shape holds of no circuit before the writer's tests.
pub fn head(o: Form, c: Circuit, next: usize, out: &mut [u8])
    requires { Fit o × (length out.old ≡ o.size) × (c.km ≤ 5) × (c.shape ≤ 1) }
    ensures { out.new ≡ head_of o c next }
{
    let first = (c.km + 256 * c.shape) as u32;
    let ws = [first, c.gcd, c.gcdkm, c.amind, c.ssn];
    record(o.first, next, &ws, out);
}
