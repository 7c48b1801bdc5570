// The answer of the call. specs/Answers.antt gives it its meaning.

// The explanation has no room in the buffer.
#[derive(Clone, Copy, PartialEq, Eq)]
pub struct NoRoom;
