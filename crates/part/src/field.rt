// The limits of a part, what a record's first bytes say before it is known to be framed, and how many classes a column
// has (specs/Format.antt, specs/Record.antt).
ghost use Rattle.std.specs.Prelude.{◌≡◌, ◌+◌, ◌<◌, ◌≤◌, max, length};
ghost use Rattle.part.specs.Format.{header, lists_at};
ghost use Rattle.part.specs.Record.{body_length, kind, lead, form_of, states, start, events, counts};
ghost use Rattle.part.specs.Frame.{class_count};

use crate::format::{Counts, Form, Kind};
use words::le;

// One above the largest class so far, with the class c.
pub fn classes_with(count: usize, c: usize) -> usize
    requires { c < 256 }
    ensures { result ≡ max count (c + 1) }
{
    count.max(c + 1)
}

// A name for the limits, and for the readers that take any bytes. These ask for the bytes that they read: a type of a
// record's head would ask the same where it is made, and add that its bytes are theirs.
#[derive(Clone, Copy)]
pub struct Part;

// A record has at most so many bytes.
const _: () = prove!(Part::RECORD == 16_782);

#[tactic(auto, unfolding(crate::specs::Record::body_length, crate::specs::Record::kind, crate::specs::Record::lead, crate::specs::Record::states, crate::specs::Record::start, crate::specs::Record::events))]
impl Part {
    pub const STATES: usize = 64;

    pub const EVENTS: usize = 32;

    pub const OBSERVERS: usize = 4;

    // The bytes of length and kind, of the four numbers of the body, of an entry, of a row.
    pub const HEADER: usize = 6;

    pub const NUMBERS: usize = 4;

    pub const ENTRY: usize = 4;

    pub const ROW: usize = 8;

    // Where the list of observers begins, and the columns where none are listed.
    pub const LISTS: usize = Part::HEADER + Part::NUMBERS;

    const ROWS: usize = Part::EVENTS * Part::STATES;

    pub const RECORD: usize = Part::LISTS
        + Part::OBSERVERS
        + Part::OBSERVERS * Part::STATES
        + Part::ENTRY * Part::EVENTS
        + Part::ROW * Part::ROWS;

    // A record with several observers lists at least so many.
    pub const LEAST_LISTED: usize = 2;

    pub fn body_length(b: &[u8]) -> usize
        requires { header ≤ length b.now }
        ensures { result ≡ body_length b.now }
    {
        le::number::<4>(b, 0) as usize
    }

    pub fn kind(b: &[u8]) -> usize
        requires { header ≤ length b.now }
        ensures { result ≡ kind b.now }
    {
        le::number::<2>(b, 4) as usize
    }

    // The first byte of the body, which the kind gives its meaning.
    pub fn lead(b: &[u8]) -> usize
        requires { lists_at ≤ length b.now }
        ensures value { result ≡ lead b.now }
        ensures upper_bound { result < 256 }
    {
        usize::from(b[6])
    }

    pub fn form(b: &[u8]) -> Form
        requires { lists_at ≤ length b.now }
        ensures value { result ≡ form_of b.now }
        ensures below_256 { (result.listed ≤ 255) × (result.columns ≤ 255) }
    {
        let kind = Part::kind(b);
        Form::choice(
            kind == Kind::Several as usize,
            kind == Kind::Limited as usize,
            Part::lead(b),
        )
    }

    pub fn states(b: &[u8]) -> usize
        requires { lists_at ≤ length b.now }
        ensures value { result ≡ states b.now }
        ensures upper_bound { result < 256 }
    {
        usize::from(b[7])
    }

    pub fn start(b: &[u8]) -> usize
        requires { lists_at ≤ length b.now }
        ensures { result ≡ start b.now }
    {
        usize::from(b[8])
    }

    pub fn events(b: &[u8]) -> usize
        requires { lists_at ≤ length b.now }
        ensures value { result ≡ events b.now }
        ensures upper_bound { result < 256 }
    {
        usize::from(b[9])
    }

    pub fn counts(b: &[u8]) -> Counts
        requires { lists_at ≤ length b.now }
        ensures value { result ≡ counts b.now }
        ensures below_256 { (result.form.listed ≤ 255) × (result.form.columns ≤ 255) }
    {
        Counts {
            form: Part::form(b),
            states: Part::states(b),
            events: Part::events(b),
        }
    }

    // How many classes a column has: one above the largest.
    pub fn classes(column: &[u8]) -> usize
        ensures value { result ≡ class_count column.now }
        ensures upper_bound { result ≤ 256 }
    {
        let mut count = 0;
        for &c in column {
            count = classes_with(count, usize::from(c));
        }
        count
    }
}
