// The MUFs for the eye: a line for each layer, and the circuit's with what sets it.
// Stays: functions of our own and no `Display`, for the reason in crate `lines`.
#![tactic(auto, using(lines::proofs::Placing::putting))]

ghost use Rattle.std.specs.Prelude.{◌≡◌};
ghost use Rattle.lines.specs.Text.{with_text};
ghost use Rattle.show_text.specs.MufTable.{muf_table_line, layer_of, circuit_line, mufs_text};

use lines::Page;
use muf::MufHour;

// A name and a MUF in MHz.
#[tactic(auto, using(lines::proofs::Placing::putting), unfolding(crate::specs::MufTable::muf_table_line))]
fn put_muf<const N: usize>(page: &mut Page<N>, name: &[u8], x: f32)
    ensures { page.new ≡ with_text N page.old (muf_table_line name.now x) }
{
    page.put_word(name);
    figures::decimal_text::put_number(page, 10, 1, x);
    page.put_byte(b'\n');
}

// The layer that sets the circuit MUF, by its mode.
// Stays: a number, for the reason at `muf::Mode`.
#[tactic(auto, unfolding(crate::specs::MufTable::layer_of))]
fn layer(mode: i32) -> &'static [u8]
    ensures { result.now ≡ layer_of mode }
{
    if mode < 2 {
        return b"E";
    }
    if mode < 3 {
        return b"F1";
    }
    b"F2"
}

#[tactic(auto, using(lines::proofs::Placing::putting), unfolding(crate::specs::MufTable::circuit_line))]
fn put_circuit<const N: usize>(page: &mut Page<N>, h: &MufHour)
    ensures { page.new ≡ with_text N page.old (circuit_line h.now) }
{
    page.put_word(b"circuit      ");
    figures::decimal_text::put_number(page, 10, 1, h.allmuf);
    page.put_word(b"   by the ");
    page.put_word(layer(h.modmuf));
    page.put_word(b" layer, controlling slot ");
    page.put_decimal(h.ks as u64);
    page.put_byte(b'\n');
}

// The MUF of each layer and of the circuit.
#[tactic(auto, using(lines::proofs::Placing::putting), unfolding(crate::specs::MufTable::mufs_text))]
pub fn put_mufs<const N: usize>(page: &mut Page<N>, h: &MufHour)
    ensures { page.new ≡ with_text N page.old (mufs_text h.now) }
{
    page.put_word(b"MUF                 MHz\n");
    put_muf(page, b"E            ", h.emuf);
    put_muf(page, b"F1           ", h.f1muf);
    put_muf(page, b"F2           ", h.f2muf);
    put_muf(page, b"sporadic E   ", h.esmuf);
    put_circuit(page, h);
}
