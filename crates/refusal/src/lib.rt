// Where a call is turned away: a case for each row of the paper's table, in its order, and for each number that a request added.
#![tactic(auto)]

ghost use Rattle.std.specs.Prelude.{◌≡◌};
ghost use Rattle.refusal.specs.Number.{number_of, answer_number};

#[derive(Clone, Copy, Debug, PartialEq, Eq)]
pub enum Refusal {
    // the file's length, or the room lent to the writer
    Length = 1,
    // kind, km, shape or a zero byte of record 0
    RecordZero = 2,
    // a step past the last record, or to a record met before
    ChainStep = 3,
    // a record of the wrong kind or with a wrong zero byte, or a chain too short or too long
    ChainRecord = 4,
    // the point count
    PointCount = 5,
    // a slot or layer number above 2
    SlotNumber = 6,
    // `sang`: a truncated gcdkm / 2000 + 1 below 1
    Distance = 7,
    // over 40 angles, or fewer than 30 cells an angle
    Reflectrix = 8,
    // gcdkm, gcd or amind outside its domain
    MufInput = 9,
    // the lists handed to the MUF
    MufLists = 10,
    // a hop count outside 0 to 999
    MufHops = 11,
    // a time block below 1
    TimeBlock = 12,
    // sin or cos outside -4 to 4
    Angle = 13,
    // a point's F2M3 that is not +0, where the file is turned into one that has no place for it
    F2m3 = 14,
    // a tariff that is not as described, a figure that is not 0.0 to 999.9, or one that no band reaches
    Tariff = 15,
    // seconds not 1 to 86,400
    Seconds = 16,
    // over 256 prices, or one above 14,400,000 cents
    Prices = 17,
    // a trace that is not one, or room for fewer lines than its rows and the other's
    Traces = 18,
    // `genion` of a slot that the profile was not made for
    Owner = 19,
    // a sheet to be marked that is over 49,152 bytes
    SheetLength = 20,
}

impl From<Refusal> for u32 {
    // the paper's number
    ghost from_gives = { λ r n. n ≡ number_of r };

    fn from(r: Refusal) -> u32 {
        r as u32
    }
}

// 0 for an answer, else the refusal's number.
pub fn answer_number<T>(answer: &Result<T, Refusal>) -> u32
    ensures { result ≡ answer_number answer.now }
{
    match answer {
        Ok(_) => 0,
        Err(r) => u32::from(*r),
    }
}
