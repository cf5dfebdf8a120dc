// Heights, a number found on a grid and a reading as words.
// Stays: words of any length are lent, as callers in C have them, so a function asks for room.
ghost use Rattle.std.specs.Prelude.{◌≡◌, ◌≤◌, length};
ghost use Rattle.port_heights.specs.Words.{heights_into, found_into, reading_into};

use heights::Heights;
use readings::{Found, Reading};

pub fn heights_into(h: Heights, out: &mut [u32])
    requires { (4 ≤ length out.old) × (h.cursor ≤ 49) }
    ensures { out.new ≡ heights_into h out.old }
{
    let x = [h.hp, h.ht];
    port_state::floats_into(&x, out, 0);
    let c = h.cursor;
    out[2] = c as u32;
    out[3] = h.segment;
}

pub fn found_into(f: Found, out: &mut [u32])
    requires { 2 ≤ length out.old }
    ensures { out.new ≡ found_into f out.old }
{
    let x = [f.value];
    port_state::floats_into(&x, out, 0);
    out[1] = f.segment;
}

pub fn reading_into(r: Reading, out: &mut [u32])
    requires { 3 ≤ length out.old }
    ensures { out.new ≡ reading_into r out.old }
{
    let x = [r.value()];
    port_state::floats_into(&x, out, 1);
    out[0] = r.kind();
    out[2] = r.segment_number();
}
