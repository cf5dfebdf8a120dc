// The functions of port_wide for callers in C, with the same contracts.
// Stays: words and bytes lent side by side and a number answered, as C has them.
#![tactic(auto)]

ghost use Rattle.std.specs.Prelude.{◌≡◌};
ghost use Rattle.port_circuit.specs.WideExports.{port_read128, port_write128};

// The circuit of a file into 657 words, and its F2M3 into five more.
#[unsafe(no_mangle)]
pub extern "C" fn port_read128(file: &[u8], out: &mut [u32]) -> u32
    ensures value { result ≡ (port_read128 file.now out.old).number }
    ensures out_after { out.new ≡ (port_read128 file.now out.old).cells }
{
    port_circuit::port_wide::port_read128(file, out)
}

// The file of the circuit and the F2M3 that 662 words hold, and into `out` how many bytes it has.
#[unsafe(no_mangle)]
pub extern "C" fn port_write128(words: &[u32], file: &mut [u8], out: &mut [u32]) -> u32
    ensures value { result ≡ (port_write128 words.now file.old out.old).number }
    ensures file_after { file.new ≡ (port_write128 words.now file.old out.old).cells }
    ensures out_after { out.new ≡ (port_write128 words.now file.old out.old).words }
{
    port_circuit::port_wide::port_write128(words, file, out)
}
