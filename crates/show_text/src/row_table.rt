// A slot's rows for the eye: numbers in decimals, in columns.
// Stays: functions of our own and no `Display`, for the reason in crate `lines`; `ion` and `i` are a row, since the ionogram has its
// rows by columns, as the Rust has.
#![tactic(auto, using(lines::proofs::Placing::putting))]

ghost use Rattle.std.specs.Prelude.{◌≡◌, ◌≤◌, ◌<◌};
ghost use Rattle.lines.specs.Text.{with_text};
ghost use Rattle.lines.specs.Aligned.{right};
ghost use Rattle.show_text.specs.RowTable.{number_column, table_row_fields, segment_text, table_row_line, rows_text};

use lines::Page;
use reflectrix::Ionogram;

// A number after two spaces.
// Stays: width and places are those of `figures::decimal_text::put_number`, and each column has its own.
#[tactic(auto, using(lines::proofs::Placing::putting), unfolding(crate::specs::RowTable::number_column))]
fn put_column<const N: usize>(page: &mut Page<N>, width: usize, places: usize, v: f32)
    requires { (width ≤ 10) × (places ≤ 9) }
    ensures { page.new ≡ with_text N page.old (number_column width places v) }
{
    page.put_word(b"  ");
    figures::decimal_text::put_number(page, width, places, v);
}

// Stays: ion and i, here and below, are a row, since the ionogram has its rows by columns, as the Rust has. Beside the two
// functions of these names in `sheet_rows` of crate sheet_text, where a number is its bits: here each column has a width and places of its own,
// and a segment may be a word.
#[tactic(auto, using(lines::proofs::Placing::putting), unfolding(crate::specs::RowTable::table_row_fields))]
fn put_numbers<const N: usize>(page: &mut Page<N>, ion: &Ionogram, i: usize)
    requires { i < 30 }
    ensures { page.new ≡ with_text N page.old (table_row_fields ion.now i) }
{
    put_column(page, 7, 2, ion.fvert[i]);
    put_column(page, 8, 1, ion.htrue[i]);
    put_column(page, 10, 1, ion.hprim[i]);
    put_column(page, 9, 4, ion.afac[i]);
}

#[tactic(auto, unfolding(crate::specs::RowTable::segment_text))]
fn put_segment<const N: usize>(page: &mut Page<N>, n: u32)
    ensures { page.new ≡ with_text N page.old (right 9 (segment_text n)) }
{
    match n {
        50 => lines::aligned::put_right(page, 9, b"-"),
        49 => lines::aligned::put_right(page, 9, b"top"),
        _ => figures::decimal_text::put_whole(page, 9, u64::from(n)),
    }
}

#[tactic(auto, using(lines::proofs::Placing::putting), unfolding(crate::specs::RowTable::table_row_line))]
fn put_row<const N: usize>(page: &mut Page<N>, ion: &Ionogram, i: usize)
    requires { i < 30 }
    ensures { page.new ≡ with_text N page.old (table_row_line ion.now i) }
{
    let n = i + 1;
    figures::decimal_text::put_whole(page, 3, n as u64);
    put_numbers(page, ion, i);
    put_segment(page, ion.segment[i]);
    page.put_byte(b'\n');
}

// The thirty rows.
#[tactic(auto, using(lines::proofs::Placing::putting), unfolding(crate::specs::RowTable::rows_text))]
pub fn put_rows<const N: usize>(page: &mut Page<N>, ion: &Ionogram)
    ensures { page.new ≡ with_text N page.old (rows_text ion.now) }
{
    // Stays: a row is i in five lists, and its number.
    for i in 0..30 {
        put_row(page, ion, i);
    }
}
