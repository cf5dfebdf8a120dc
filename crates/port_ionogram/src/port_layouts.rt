// Rows and marks as words.
// Stays: a list and a place in it, since callers in C lend one list of words for all that is written.
ghost use Rattle.std.specs.Prelude.{◌≡◌, map, ◌+◌, ◌≤◌, length};
ghost use Rattle.profile.specs.Mark.{mark_number_of};
ghost use Rattle.port_ionogram.specs.Layouts.{ionogram_of, ionogram_into, marks_into};

use profile::shapes::Mark;
use reflectrix::Ionogram;

pub fn ionogram_of(w: &[u32]) -> Ionogram
    requires { 150 ≤ length w.now }
    ensures { result ≡ ionogram_of w.now }
{
    Ionogram {
        fvert: port_state::floats(w, 0),
        hprim: port_state::floats(w, 30),
        htrue: port_state::floats(w, 60),
        afac: port_state::floats(w, 90),
        segment: port_circuit::words_from(w, 120),
    }
}

pub fn ionogram_into(ion: Ionogram, w: &mut [u32])
    requires { 150 ≤ length w.old }
    ensures { w.new ≡ ionogram_into ion w.old }
{
    port_state::floats_into(&ion.fvert, w, 0);
    port_state::floats_into(&ion.hprim, w, 30);
    port_state::floats_into(&ion.htrue, w, 60);
    port_state::floats_into(&ion.afac, w, 90);
    port_circuit::words_into(&ion.segment, w, 120);
}

fn mark_numbers(marks: [Mark; 50]) -> [u32; 50]
    ensures { result ≡ map mark_number_of marks }
{
    marks.map(|m| u32::from(m))
}

// The numbers of the marks, from word `from` on.
pub fn marks_into(marks: [Mark; 50], w: &mut [u32], from: usize)
    requires { from + 50 ≤ length w.old }
    ensures { w.new ≡ marks_into marks w.old from }
{
    let numbers = mark_numbers(marks);
    port_circuit::words_into(&numbers, w, from);
}
