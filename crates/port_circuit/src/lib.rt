// The circuit file for callers in any language: words in, words out. Each function answers 0, or the number of its refusal, and then
// leaves every lent word or byte as it was.
// Stays: words and bytes lent side by side, read and written from a place on, and numbers answered, as callers in C have them; beside
// `port_state`, whose words are converted to floats one by one where these are copied.
#![tactic(auto)]

pub mod port_wide;

ghost use Rattle.std.specs.Prelude.{◌≡◌, ◌+◌, ◌≤◌, length};
ghost use Rattle.port_circuit.specs.Words.{words_from, words_into, circuit_of_words, circuit_into};
ghost use Rattle.refusal.specs.Number.{answer_number};
ghost use Rattle.port_circuit.specs.Exports.{port_read, port_write};

use circuit::Circuit;
use refusal::Refusal;

// N words from `from` on.
pub fn words_from<const N: usize>(w: &[u32], from: usize) -> [u32; N]
    requires { from + N ≤ length w.now }
    ensures { result ≡ words_from w.now from N }
{
    std::array::from_fn(|i| w[from + i])
}

pub fn circuit_of(w: &[u32]) -> Circuit
    requires { 657 ≤ length w.now }
    ensures { result ≡ circuit_of_words w.now }
{
    Circuit {
        km: w[0] as usize,
        shape: w[1] as usize,
        gcd: w[2],
        gcdkm: w[3],
        amind: w[4],
        ssn: w[5],
        points: words_from(w, 6),
        deciles: words_from(w, 81),
    }
}

// The words written from `from` on.
pub fn words_into(x: &[u32], w: &mut [u32], from: usize)
    requires { from + length x.now ≤ length w.old }
    ensures { w.new ≡ words_into w.old from x.now }
{
    w[from..from + x.len()].copy_from_slice(x);
}

pub fn circuit_into(c: Circuit, w: &mut [u32])
    requires { (657 ≤ length w.old) × (c.km ≤ 5) × (c.shape ≤ 1) }
    ensures { w.new ≡ circuit_into c w.old }
{
    let x = [c.km as u32, c.shape as u32, c.gcd, c.gcdkm, c.amind, c.ssn];
    words_into(&x, w, 0);
    words_into(&c.points, w, 6);
    words_into(&c.deciles, w, 81);
}

#[tactic(auto, unfolding(crate::specs::Exports::port_read, crate::specs::Exports::ported_read_of))]
fn read_into(file: &[u8], out: &mut [u32]) -> Result<(), Refusal>
    ensures value { answer_number result ≡ (port_read file.now out.old).number }
    ensures out_after { out.new ≡ (port_read file.now out.old).cells }
{
    if out.len() < 657 {
        return Err(Refusal::Length);
    }
    let c = circuit::read(file)?;
    circuit_into(c, out);
    Ok(())
}

// The circuit of a file, into 657 words.
pub fn port_read(file: &[u8], out: &mut [u32]) -> u32
    ensures value { result ≡ (port_read file.now out.old).number }
    ensures out_after { out.new ≡ (port_read file.now out.old).cells }
{
    refusal::answer_number(&read_into(file, out))
}

#[tactic(auto, unfolding(crate::specs::Exports::port_write))]
fn write_into(words: &[u32], file: &mut [u8], out: &mut [u32]) -> Result<(), Refusal>
    ensures value { answer_number result ≡ (port_write words.now file.old out.old).number }
    ensures file_after { file.new ≡ (port_write words.now file.old out.old).cells }
    ensures out_after { out.new ≡ (port_write words.now file.old out.old).words }
{
    if words.len() < 657 || out.is_empty() {
        return Err(Refusal::Length);
    }
    let c = circuit_of(words);
    let a = circuit::circuit_write::write(c, file);
    answer_words::count_into(a, out)
}

// The file of the circuit that 657 words hold, and into `out` how many bytes it has.
pub fn port_write(words: &[u32], file: &mut [u8], out: &mut [u32]) -> u32
    ensures value { result ≡ (port_write words.now file.old out.old).number }
    ensures file_after { file.new ≡ (port_write words.now file.old out.old).cells }
    ensures out_after { out.new ≡ (port_write words.now file.old out.old).words }
{
    refusal::answer_number(&write_into(words, file, out))
}
