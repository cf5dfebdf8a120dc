// Why a circuit file was turned away, in words.
// Stays: functions of our own and no `Display`, for the reason in crate `lines`.
#![tactic(auto, using(lines::proofs::Placing::putting))]

ghost use Rattle.std.specs.Prelude.{◌≡◌};
ghost use Rattle.lines.specs.Text.{with_text};
ghost use Rattle.show_text.specs.ReasonText.{reason_of};

use lines::Page;
use refusal::Refusal;

// Stays: a `From` could stand only in crate `refusal`, below everything, and would not say that these are the words of one page; a
// function's name does.
#[tactic(auto, unfolding(crate::specs::ReasonText::reason_of, crate::specs::ReasonText::file_reason, crate::specs::ReasonText::hour_reason))]
fn reason(r: Refusal) -> &'static [u8]
    ensures { result.now ≡ reason_of r }
{
    match r {
        Refusal::Length => b"the file's length is not a multiple of 64, or not 128 to 4096 bytes",
        Refusal::RecordZero =>
            b"record 0: kind, number of points, shape, or a byte that must be zero",
        Refusal::ChainStep =>
            b"a step of the chain leads past the last record, or to a record met before",
        Refusal::ChainRecord =>
            b"a record has the wrong kind or a byte that must be zero, or the chain is too short or too long",
        Refusal::Distance => b"the path length in kilometres is below 0, or not a number",
        Refusal::MufInput =>
            b"path length outside 0 to 40100 km or 0 to 6.3 radians, or least takeoff angle above 90 degrees",
        Refusal::MufHops => b"a layer's hop count, before its plus one, is not 0 to 999",
        Refusal::TimeBlock =>
            b"the first decile number is above 0 or not a number, and the clock at the controlling slot has no time block",
        Refusal::PointCount
        | Refusal::SlotNumber
        | Refusal::Reflectrix
        | Refusal::MufLists
        | Refusal::Angle
        | Refusal::F2m3
        | Refusal::Tariff
        | Refusal::Seconds
        | Refusal::Prices
        | Refusal::Traces
        | Refusal::Owner
        | Refusal::SheetLength => b"no circuit file is refused with this number",
    }
}

// The refusal's reason, with no line end.
pub fn put_reason<const N: usize>(page: &mut Page<N>, r: Refusal)
    ensures { page.new ≡ with_text N page.old (reason_of r) }
{
    page.put_word(reason(r));
}
