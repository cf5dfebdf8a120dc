// A text into bytes that a caller lends, and its length into a word.
ghost use Rattle.std.specs.Prelude.{◌≡◌, ◌≤◌, ◌<◌, length, IfOk};
ghost use Rattle.refusal.specs.Number.{answer_number};
ghost use Rattle.port_text.specs.Left.{text_bytes, left_by};

use refusal::Refusal;

// Stays: bytes and a word, as callers in C lend them.
// Where it is refused, every lent byte and word stays as it was.
pub fn text_into(
    text: Result<&[u8], Refusal>,
    out: &mut [u8],
    words: &mut [u32],
) -> Result<(), Refusal>
    requires { (1 ≤ length words.old) × IfOk text (λ t. (length t.now ≤ length out.old) × (length t.now < 0x1_0000_0000)) }
    ensures { (answer_number result ≡ (left_by text.entry (text_bytes text.entry) out.old words.old).number) × ((out.new ≡ (left_by text.entry (text_bytes text.entry) out.old words.old).bytes) × (words.new ≡ (left_by text.entry (text_bytes text.entry) out.old words.old).words)) }
{
    let text = text?;
    out[..text.len()].copy_from_slice(text);
    words[0] = text.len() as u32;
    Ok(())
}
