// The sheet of a circuit file for callers in any language: the file's bytes in, the text that `sheet` prints out. The function answers 0, or the number of its refusal, and then leaves every lent byte and word as it was.
// Stays: bytes lent for the text and a word for its length, for callers in C.
#![tactic(auto)]

pub mod lent_text;

ghost use Rattle.std.specs.Prelude.{◌≡◌};
ghost use Rattle.refusal.specs.Number.{answer_number};
ghost use Rattle.port_text.specs.Exports.{sheet_left};

use refusal::Refusal;

#[tactic(auto, unfolding(crate::specs::Exports::sheet_left, sheet_text::specs::SheetText::sheet_text))]
fn sheet_text_into(file: &[u8], out: &mut [u8], length: &mut [u32]) -> Result<(), Refusal>
    ensures { (answer_number result ≡ (sheet_left file.now out.old length.old).number) × ((out.new ≡ (sheet_left file.now out.old length.old).bytes) × (length.new ≡ (sheet_left file.now out.old length.old).words)) }
{
    if out.len() < sheet_text::ROOM || length.is_empty() {
        return Err(Refusal::Length);
    }
    let page = sheet_text::sheet_page(file)?;
    crate::lent_text::text_into(Ok(page.text()), out, length)
}

// file: a circuit file; out: room for 8,192 bytes, into which the text is put; length: a word for the text's length
pub fn port_sheet_text(file: &[u8], out: &mut [u8], length: &mut [u32]) -> u32
    ensures { (result ≡ (sheet_left file.now out.old length.old).number) × ((out.new ≡ (sheet_left file.now out.old length.old).bytes) × (length.new ≡ (sheet_left file.now out.old length.old).words)) }
{
    refusal::answer_number(&sheet_text_into(file, out, length))
}
