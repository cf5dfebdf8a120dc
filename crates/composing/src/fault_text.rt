// What is wrong with a text that says a circuit, put on a page: the number of its line, and what is wrong.
// Stays: functions of our own and no `Display`, for the reason in crate `lines`.
#![tactic(auto, using(lines::proofs::Placing::putting))]

ghost use Rattle.std.specs.Prelude.{◌≡◌};
ghost use Rattle.lines.specs.Text.{with_text};
ghost use Rattle.composing.specs.FaultText.{fault_words, wrong_text};

use crate::compose_line::{Fault, Wrong};
use lines::Page;

// Stays: a `From` could stand only beside `Fault`, in `compose_line`, which puts no text on a page, and would not say what it gives;
// a function's name does.
#[tactic(auto, unfolding(crate::specs::FaultText::fault_words))]
fn fault_words(fault: Fault) -> &'static [u8]
    ensures { result.now ≡ fault_words fault }
{
    match fault {
        Fault::UnknownLine => b"not path, point or deciles",
        Fault::UnknownField => b"unknown field",
        Fault::FieldTwice => b"a field twice",
        Fault::NotANumber => b"not a number",
        Fault::NumberMissing => b"a number is missing",
        Fault::FieldMissing => b"a field is missing",
        Fault::SecondPath => b"a second path",
        Fault::BadShape => b"shape is not 0 or 1",
        Fault::NoPathYet => b"no path before it",
        Fault::PointTooLate => b"a point after deciles",
        Fault::TooManyPoints => b"too many points",
        Fault::NoPointYet => b"no point before it",
        Fault::TooManyDeciles => b"too many deciles",
        Fault::NoPath => b"no path",
        Fault::NoPoint => b"no point",
        Fault::TooFewDeciles => b"not 48 lines of deciles",
    }
}

#[tactic(auto, using(lines::proofs::Placing::putting), unfolding(crate::specs::FaultText::wrong_text))]
pub fn put_wrong<const N: usize>(page: &mut Page<N>, wrong: Wrong)
    ensures { page.new ≡ with_text N page.old (wrong_text wrong) }
{
    page.put_word(b"line ");
    page.put_decimal(wrong.line as u64);
    page.put_word(b": ");
    page.put_word(fault_words(wrong.fault));
    page.put_byte(b'\n');
}
