// The chain of a circuit file, followed from record 0, in any form.
ghost use Rattle.std.specs.Prelude.{◌≡◌, [], ◌∷◌, ◌+◌, ◌*◌, ◌≤◌, length, leb};
ghost use Rattle.refusal.specs.Number.{answer_number};
ghost use Rattle.records.specs.Record.{Fit, form64, record_at, next_of};
ghost use Rattle.records.specs.Chain.{chain_of, head_good, member, step_of, step_index, sound_by};

use crate::{Form, Kind};
use refusal::Refusal;

// The records of a chain, in its order: `count` of them, then zeros.
// Stays: a copied record of fixed memory, and the laws speak of its list of 64 with the zeros.
#[derive(Clone, Copy, Debug, PartialEq, Eq)]
pub struct Chain {
    pub order: [usize; 64],
    pub count: usize,
}

fn is_among(list: &[usize], n: usize) -> bool
    ensures { result ≡ member n list.now }
{
    list.contains(&n)
}

// The bytes of a file, and the form that they are read in.
#[derive(Clone, Copy)]
struct File<'a> {
    form: Form,
    bytes: &'a [u8],
    ghost fit: { Fit form },
}

impl<'a> File<'a> {
    // Record n, as its part of the file.
    // Stays: that record n is there is asked here and of the two below that read one. A chain keeps
    // numbers, and a type for such a number would be made at each step.
    fn record(&self, n: usize) -> &'a [u8]
        requires { self.now.form.size * n + self.now.form.size ≤ length self.now.bytes.now }
        ensures { result.now ≡ record_at self.now.form self.now.bytes.now n }
    {
        let from = self.form.size * n;
        &self.bytes[from..from + self.form.size]
    }

    #[tactic(auto, using(std::proofs::lemmas::List::take_rest), unfolding(crate::specs::Chain::head_good))]
    fn head_good(&self) -> bool
        requires { self.now.form.size ≤ length self.now.bytes.now }
        ensures { result ≡ head_good self.now.form (record_at self.now.form self.now.bytes.now 0) }
    {
        let r = self.record(0);
        crate::half(r, 0) == self.form.first
            && (1..=5).contains(&crate::byte(r, 4))
            && crate::byte(r, 5) <= 1
            && crate::all_zero(&r[6..8])
            && crate::all_zero(&r[24..])
    }

    // The step out of record `at`, after the records of `order`: to no record, or to one that is there and was not met before.
    // Unless it is refused it goes where the record's next index says.
    fn step_out(&self, order: &[usize], at: usize) -> Result<Option<usize>, Refusal>
        requires { self.now.form.size * at + self.now.form.size ≤ length self.now.bytes.now }
        ensures value { result ≡ step_of self.now.form self.now.bytes.now order.now at }
        ensures result_value { answer_number result ≡ 0 → step_index result ≡ next_of (record_at self.now.form self.now.bytes.now at) }
    {
        let next = crate::half(self.record(at), 2);
        if next == 0 {
            return Ok(None);
        }
        if next >= self.bytes.len() / self.form.size || is_among(order, next) {
            return Err(Refusal::ChainStep);
        }
        Ok(Some(next))
    }

    // Whether record n is one that may stand where `left` more may follow.
    fn may_stand(&self, n: usize, left: usize) -> bool
        requires { self.now.form.size * n + self.now.form.size ≤ length self.now.bytes.now }
        ensures { result ≡ sound_by self.now.form (leb 48 left) (record_at self.now.form self.now.bytes.now n) }
    {
        let r = self.record(n);
        if 48 <= left {
            return crate::sound(r, Kind::Point as usize, 15 + self.form.extra);
        }
        crate::sound(r, Kind::Deciles as usize, 12)
    }

    // The chain from record 0 on, of km points.
    // Stays: km ≤ 5 is what the test of record 0 told just before, and no type of its own.
    fn walk(&self, km: usize) -> Result<Chain, Refusal>
        requires { (self.now.form.size ≤ length self.now.bytes.now) × (km ≤ 5) }
        ensures { result ≡ Rattle.records.specs.Chain.walk self.now.form self.now.bytes.now (km + 48) (0 ∷ []) 0 }
    {
        let mut order = [0usize; 64];
        let mut count: usize = 1;
        let mut at: usize = 0;
        let mut left = km + 48;
        // Stays: the chain says itself where it goes and ends; nothing is counted but what may follow.
        while let Some(next) = self.step_out(&order[..count], at)? {
            if left == 0 {
                return Err(Refusal::ChainRecord);
            }
            left -= 1;
            if !self.may_stand(next, left) {
                return Err(Refusal::ChainRecord);
            }
            order[count] = next;
            count += 1;
            at = next;
        }
        if left != 48 && left != 0 {
            return Err(Refusal::ChainRecord);
        }
        Ok(Chain { order, count })
    }
}

// The chain of a file, or where it is turned away.
// Stays: `Fit o` is asked here, since `every-fit` (crate `statement_checks`) speaks of any three numbers, and a `Form` that held the fact
// could not be written down there.
pub fn follow_form(o: Form, file: &[u8]) -> Result<Chain, Refusal>
    requires { Fit o }
    ensures { result ≡ chain_of o file.now }
{
    let n = file.len();
    let size = o.size;
    if n % size != 0 || n < 2 * size || n > 64 * size {
        return Err(Refusal::Length);
    }
    let f = File {
        form: o,
        bytes: file,
    };
    if !f.head_good() {
        return Err(Refusal::RecordZero);
    }
    f.walk(crate::byte(f.record(0), 4))
}

// The same of a file in the paper's form.
pub fn follow(file: &[u8]) -> Result<Chain, Refusal>
    ensures { result ≡ chain_of form64 file.now }
{
    follow_form(crate::form64(), file)
}
