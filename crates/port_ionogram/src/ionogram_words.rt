// The angle count as a word, and rows with their marks as words.
ghost use Rattle.std.specs.Prelude.{◌≡◌, ◌≤◌, length};
ghost use Rattle.refusal.specs.Number.{answer_number};
ghost use Rattle.port_ionogram.specs.Layouts.{ionogram_into, marks_into};
ghost use Rattle.port_ionogram.specs.Sang.{sang_words};

use profile::shapes::Mark;
use reflectrix::Ionogram;
use refusal::Refusal;

// out: the angle count. Stays: gcdkm and amind are the Rust's, and out is lent by a caller in C.
#[tactic(auto, unfolding(crate::specs::Sang::sang_words))]
pub fn sang_into(gcdkm: u32, amind: u32, out: &mut [u32]) -> Result<(), Refusal>
    ensures { (answer_number result ≡ (sang_words gcdkm amind out.old).number) × (out.new ≡ (sang_words gcdkm amind out.old).words) }
{
    if out.len() < 1 {
        return Err(Refusal::Length);
    }
    let km = scalar::number(gcdkm);
    let least = scalar::number(amind);
    let a = reflectrix::scan_angles::sang(km, least);
    answer_words::count_into(a, out)
}

// 150 words of rows, then the numbers of the fifty marks.
pub fn marked_into(ion: Ionogram, marks: [Mark; 50], out: &mut [u32])
    requires { 200 ≤ length out.old }
    ensures { out.new ≡ marks_into marks (ionogram_into ion out.old) 150 }
{
    crate::port_layouts::ionogram_into(ion, out);
    crate::port_layouts::marks_into(marks, out, 150);
}
