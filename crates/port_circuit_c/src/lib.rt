// The functions of port_circuit for callers in C, with the same contracts.
// Stays: words and bytes lent side by side and a number answered, as C has them.
#![tactic(auto)]

ghost use Rattle.std.specs.Prelude.{◌≡◌};
ghost use Rattle.port_circuit.specs.Exports.{port_read, port_write};

// The circuit of a file, into 657 words.
#[unsafe(no_mangle)]
pub extern "C" fn port_read(file: &[u8], out: &mut [u32]) -> u32
    ensures value { result ≡ (port_read file.now out.old).number }
    ensures out_after { out.new ≡ (port_read file.now out.old).cells }
{
    port_circuit::port_read(file, out)
}

// The file of the circuit that 657 words hold, and into `out` how many bytes it has.
#[unsafe(no_mangle)]
pub extern "C" fn port_write(words: &[u32], file: &mut [u8], out: &mut [u32]) -> u32
    ensures value { result ≡ (port_write words.now file.old out.old).number }
    ensures file_after { file.new ≡ (port_write words.now file.old out.old).cells }
    ensures out_after { out.new ≡ (port_write words.now file.old out.old).words }
{
    port_circuit::port_write(words, file, out)
}
