// What can be wrong with a text that says a circuit.

#[derive(Clone, Copy, Debug, PartialEq, Eq)]
pub enum Fault {
    // a line's first word is none of the three
    UnknownLine = 1,
    UnknownField = 2,
    FieldTwice = 3,
    NotANumber = 4,
    // the line ends before a field's last number
    NumberMissing = 5,
    FieldMissing = 6,
    SecondPath = 7,
    // a shape that is not 0 or 1
    BadShape = 8,
    // a point before the path
    NoPathYet = 9,
    // a point after deciles
    PointTooLate = 10,
    TooManyPoints = 11,
    // deciles before a point
    NoPointYet = 12,
    TooManyDeciles = 13,
    // a text without a path, without a point, or with deciles that are not 48 lines
    NoPath = 14,
    NoPoint = 15,
    TooFewDeciles = 16,
}

// The first line of a text that is wrong, counted from 1, and what is wrong with it; the end of the text counts as a line.
#[derive(Clone, Copy, Debug, PartialEq, Eq)]
pub struct Wrong {
    pub line: usize,
    pub fault: Fault,
}
