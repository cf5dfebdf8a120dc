// Circuit files turned from the paper's form into the one that carries F2M3, F2M3 then being +0, and back. What is written is
// in chain order, without the records off the chain, and without deciles that are all +0.
// Stays: functions of our own and no `Display`, for the reason in crate `lines`.
#![tactic(auto)]

ghost use Rattle.std.specs.Prelude.{◌≡◌, true, [], replicate};
ghost use Rattle.lines.specs.Text.{with_text};
ghost use Rattle.records.specs.Record.{form64};
ghost use Rattle.circuit.specs.Written.{file_of, good_of};
ghost use Rattle.circuit.specs.Wide.{form128, wide_of};
ghost use Rattle.circuit_turn.specs.Turn.{back_of, widened, narrowed};

use circuit::Circuit;
use lines::Page;
pub use records::INPUT as OLD_INPUT;
use refusal::Refusal;

// The bytes that a program reads of a wide file: a record more than the longest, as `OLD_INPUT` is of one in the paper's form.
pub const NEW_INPUT: usize = 8320;

// The bytes of a page: a file of 54 records, the most that are written, has room.
pub const OLD_ROOM: usize = 3456;

pub const NEW_ROOM: usize = 6912;

// The file with F2M3 that is +0.
// Stays: a function of its own beside `put_old`, since one for both, with the writer handed in, would have to ask of it that it writes
// the whole file and answers its length: a promise longer than the lines that the two share.
fn put_wide<const N: usize>(page: &mut Page<N>, c: Circuit)
    requires { good_of c ≡ true }
    ensures { page.new ≡ with_text N page.old (file_of form128 c (replicate 5 0)) }
{
    let mut file = [0u8; NEW_ROOM];
    let n = circuit::wide_circuit::write(c, [0; 5], &mut file).unwrap_or(0);
    page.put_word(&file[..n]);
}

// The file of a circuit in the paper's form.
pub fn put_old<const N: usize>(page: &mut Page<N>, c: Circuit)
    requires { good_of c ≡ true }
    ensures { page.new ≡ with_text N page.old (file_of form64 c []) }
{
    let mut file = [0u8; OLD_ROOM];
    let n = circuit::circuit_write::write(c, &mut file).unwrap_or(0);
    page.put_word(&file[..n]);
}

// The circuit on the way back: F2M3 is looked at after the whole chain was read.
#[tactic(auto, unfolding(crate::specs::Turn::back_of))]
fn old_circuit(file: &[u8]) -> Result<Circuit, Refusal>
    ensures { result ≡ back_of (wide_of file.now) }
{
    let a = circuit::wide_circuit::read(file)?;
    if circuit::all_zero(&a.f2m3) {
        return Ok(a.circuit);
    }
    Err(Refusal::F2m3)
}

// What `widen` writes of a file: the wide file, or the line of a refusal.
// Stays: a page of either case, here, in `narrow`, in `chain_text` and in `composing`. One function over the answer, called as
// `of(circuit::read(file), put_wide)`, would have to ask `F.pre` at each circuit that may be answered, since `put_wide` and `put_old`
// ask that it is good, and to promise by `F.post` what is put: more than these five lines.
pub fn widen(file: &[u8]) -> Page<NEW_ROOM>
    ensures { result ≡ widened file.now }
{
    let mut page = Page::new();
    match circuit::read(file) {
        Ok(c) => put_wide(&mut page, c),
        Err(r) => page.put_refused(r),
    }
    page
}

// What `narrow` writes of a file: the file in the paper's form, or the line of a refusal.
pub fn narrow(file: &[u8]) -> Page<OLD_ROOM>
    ensures { result ≡ narrowed file.now }
{
    let mut page = Page::new();
    match old_circuit(file) {
        Ok(c) => put_old(&mut page, c),
        Err(r) => page.put_refused(r),
    }
    page
}
