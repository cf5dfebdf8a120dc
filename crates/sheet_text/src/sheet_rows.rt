// The thirty rows of a slot, as lines of text put on a page.
// Stays: functions of our own and no `Display`, for the reason in crate `lines`; `ion` and `i` are a row, since the ionogram has its
// rows by columns, as the Rust has.
#![tactic(auto, using(lines::proofs::Placing::putting))]

ghost use Rattle.std.specs.Prelude.{◌≡◌, ◌<◌};
ghost use Rattle.lines.specs.Text.{joined, with_text};
ghost use Rattle.sheet_text.specs.SheetRows.{bits_field, row_fields, row_line};

use lines::Page;
use reflectrix::Ionogram;

// A field after another: one space, then the digits of the number's bits.
#[tactic(auto, using(lines::proofs::Placing::putting), unfolding(crate::specs::SheetRows::bits_field))]
pub fn put_bits<const N: usize>(page: &mut Page<N>, x: f32)
    ensures { page.new ≡ with_text N page.old (bits_field x) }
{
    page.put_byte(b' ');
    page.put_hex(scalar::bits(x));
}

// Stays: ion and i, here and below, are a row, since the ionogram has its rows by columns, as the Rust has. In `row_table` of crate show_text,
// whose functions have these names, each column has a width and places of its own.
#[tactic(auto, using(lines::proofs::Placing::putting), unfolding(crate::specs::SheetRows::row_fields))]
fn put_numbers<const N: usize>(page: &mut Page<N>, ion: &Ionogram, i: usize)
    requires { i < 30 }
    ensures { page.new ≡ with_text N page.old (row_fields ion.now i) }
{
    put_bits(page, ion.fvert[i]);
    put_bits(page, ion.htrue[i]);
    put_bits(page, ion.hprim[i]);
    put_bits(page, ion.afac[i]);
}

#[tactic(auto, using(lines::proofs::Placing::putting), unfolding(crate::specs::SheetRows::row_line))]
fn put_row<const N: usize>(page: &mut Page<N>, ion: &Ionogram, i: usize)
    requires { i < 30 }
    ensures { page.new ≡ with_text N page.old (row_line ion.now i) }
{
    let n = i + 1;
    page.put_decimal(n as u64);
    put_numbers(page, ion, i);
    page.put_field(u64::from(ion.segment[i]));
    page.put_byte(b'\n');
}

// All thirty.
// Stays: an index, since row i is made of item i of each list of the ionogram.
pub fn put_rows<const N: usize>(page: &mut Page<N>, ion: &Ionogram)
    ensures { page.new ≡ with_text N page.old (joined (row_line ion.now) 30) }
{
    for i in 0..30 {
        put_row(page, ion, i);
    }
}
