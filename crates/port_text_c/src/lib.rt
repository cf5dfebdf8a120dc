// The functions of port_text for callers in C, with the same contracts.
// Stays: bytes lent for the text and a word for its length, for callers in C.
#![tactic(auto)]

ghost use Rattle.std.specs.Prelude.{◌≡◌};
ghost use Rattle.port_text.specs.Exports.{sheet_left};

// file: a circuit file; out: room for 8,192 bytes, into which the text is put; length: a word for the text's length
#[unsafe(no_mangle)]
pub extern "C" fn port_sheet_text(file: &[u8], out: &mut [u8], length: &mut [u32]) -> u32
    ensures { (result ≡ (sheet_left file.now out.old length.old).number) × ((out.new ≡ (sheet_left file.now out.old length.old).bytes) × (length.new ≡ (sheet_left file.now out.old length.old).words)) }
{
    port_text::port_sheet_text(file, out, length)
}
