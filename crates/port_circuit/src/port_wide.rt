// The circuit file that carries F2M3, for callers in any language: words in, words out. Each function answers 0, or the number
// of its refusal, and then leaves every lent word or byte as it was.
// Stays: words and bytes lent side by side and numbers answered, by calls of their own, as callers in C have them.
ghost use Rattle.std.specs.Prelude.{◌≡◌, ◌≤◌, length};
ghost use Rattle.refusal.specs.Number.{answer_number};
ghost use Rattle.port_circuit.specs.WideExports.{wide_into, port_read128, port_write128};

use circuit::wide_circuit::WideCircuit;
use refusal::Refusal;

fn wide_into(a: WideCircuit, w: &mut [u32])
    requires { (662 ≤ length w.old) × (a.circuit.km ≤ 5) × (a.circuit.shape ≤ 1) }
    ensures { w.new ≡ wide_into a w.old }
{
    crate::circuit_into(a.circuit, w);
    crate::words_into(&a.f2m3, w, 657);
}

#[tactic(auto, unfolding(crate::specs::WideExports::port_read128, crate::specs::WideExports::ported_wide_of))]
fn read_into(file: &[u8], out: &mut [u32]) -> Result<(), Refusal>
    ensures value { answer_number result ≡ (port_read128 file.now out.old).number }
    ensures out_after { out.new ≡ (port_read128 file.now out.old).cells }
{
    if out.len() < 662 {
        return Err(Refusal::Length);
    }
    let a = circuit::wide_circuit::read(file)?;
    wide_into(a, out);
    Ok(())
}

// The circuit of a file into 657 words, and its F2M3 into five more.
pub fn port_read128(file: &[u8], out: &mut [u32]) -> u32
    ensures value { result ≡ (port_read128 file.now out.old).number }
    ensures out_after { out.new ≡ (port_read128 file.now out.old).cells }
{
    refusal::answer_number(&read_into(file, out))
}

#[tactic(auto, unfolding(crate::specs::WideExports::port_write128))]
fn write_into(words: &[u32], file: &mut [u8], out: &mut [u32]) -> Result<(), Refusal>
    ensures value { answer_number result ≡ (port_write128 words.now file.old out.old).number }
    ensures file_after { file.new ≡ (port_write128 words.now file.old out.old).cells }
    ensures out_after { out.new ≡ (port_write128 words.now file.old out.old).words }
{
    if words.len() < 662 || out.is_empty() {
        return Err(Refusal::Length);
    }
    let c = crate::circuit_of(words);
    let f2m3 = crate::words_from(words, 657);
    let a = circuit::wide_circuit::write(c, f2m3, file);
    answer_words::count_into(a, out)
}

// The file of the circuit and the F2M3 that 662 words hold, and into `out` how many bytes it has.
pub fn port_write128(words: &[u32], file: &mut [u8], out: &mut [u32]) -> u32
    ensures value { result ≡ (port_write128 words.now file.old out.old).number }
    ensures file_after { file.new ≡ (port_write128 words.now file.old out.old).cells }
    ensures out_after { out.new ≡ (port_write128 words.now file.old out.old).words }
{
    refusal::answer_number(&write_into(words, file, out))
}
