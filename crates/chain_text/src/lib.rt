// What `chain` prints of a circuit file, as bytes.
// Stays: functions of our own and no `Display`, for the reason in crate `lines`.
#![tactic(auto, using(lines::proofs::Placing::putting))]

ghost use Rattle.std.specs.Prelude.{Ok, ◌≡◌, length};
ghost use Rattle.lines.specs.Text.{with_text};
ghost use Rattle.records.specs.Record.{form64};
ghost use Rattle.records.specs.Chain.{chain_of};
ghost use Rattle.chain_text.specs.ChainText.{step_line, followed_text, chain_text};

use lines::Page;
pub use records::INPUT;
use records::record_chain::Chain;

// A step of the chain: the record's number, its kind and its next index.
#[tactic(auto, using(lines::proofs::Placing::putting), unfolding(crate::specs::ChainText::step_line))]
fn put_step<const N: usize>(page: &mut Page<N>, n: usize, bytes: &[u8])
    requires { length bytes.now ≡ 64 }
    ensures { page.new ≡ with_text N page.old (step_line bytes.now n) }
{
    page.put_decimal(n as u64);
    page.put_field(records::half(bytes, 0) as u64);
    page.put_field(records::half(bytes, 2) as u64);
    page.put_byte(b'\n');
}

// The steps, then their count.
#[tactic(auto, using(lines::proofs::Placing::putting, crate::proofs::Within::step_there), unfolding(crate::specs::ChainText::followed_text, crate::specs::ChainText::end_line))]
fn put_chain<const N: usize>(page: &mut Page<N>, file: &[u8], chain: &Chain)
    requires { chain_of form64 file.now ≡ Ok chain.now }
    ensures { page.new ≡ with_text N page.old (followed_text file.now chain.now) }
{
    // Stays: n is the record's number, which the line says and at which its bytes stand; the list is of such numbers.
    for n in &chain.order[..chain.count] {
        put_step(page, *n, &file[64 * n..64 * n + 64]);
    }
    page.put_word(b"end ");
    page.put_decimal(chain.count as u64);
    page.put_byte(b'\n');
}

// The bytes of a page: the text of 64 steps has room.
pub const ROOM: usize = 4096;

// Stays: a page of either case, as in crate circuit_turn, where the one function for them is written down.
pub fn chain_text(file: &[u8]) -> Page<ROOM>
    ensures { result ≡ chain_text file.now }
{
    let mut page = Page::new();
    match records::record_chain::follow(file) {
        Ok(chain) => put_chain(&mut page, file, &chain),
        Err(r) => page.put_refused(r),
    }
    page
}
