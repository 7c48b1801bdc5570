// The answers about a record. specs/Answers.antt gives each its number.

// Why a record is rejected.
#[derive(Clone, Copy, PartialEq, Eq)]
pub enum Rejection {
    TooShort,
    WrongLength,
    WrongKind,
    OutOfRange,
    WrongSize,
    Mislisted,
    Misnumbered,
    Misrefined,
    Misordered,
    Mislabelled,
    StrayBit,
}
