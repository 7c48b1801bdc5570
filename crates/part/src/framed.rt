// A record whose counts and length fit, and each of its fields (specs/Record.antt).
ghost use Rattle.std.specs.Prelude.{◌≡◌, ◌<◌, ◌≤◌, ◌^◌, true};
ghost use Rattle.std.proofs.Math.Option.{none};
ghost use Rattle.std.proofs.Props.{props};
ghost use Rattle.words.specs.Arrays.{Filled, words_of};
ghost use Rattle.words.specs.LittleEndian.{Bytes};
ghost use Rattle.part.specs.Format.{max_states, max_events};
ghost use Rattle.part.specs.Record.{kind, lead, form_of, observers, observer, states, start, events, counts};
ghost use Rattle.part.specs.Record.{column, fine_column, entry_at, identifier, event_kind, level, row_at, row};
ghost use Rattle.part.specs.Events.{kind_of, place};
ghost use Rattle.part.specs.Frame.{Few, Framed, Rising, FindsPlace};
ghost use Rattle.part.specs.Kinds.{kind_with, machine_kind};

use crate::field::Part;
use crate::format::{Counts, EventKind, Form, Kind};
use words::le;

#[derive(Clone, Copy)]
pub struct Record<'a> {
    bytes: &'a [u8],
    pub ghost framed: { Framed bytes.now } by { Prim.hlevel props },
    pub ghost octets: { Bytes bytes.now } by { Prim.hlevel props },
}

// An index is bounded where it is used, as with a slice; a type for an event would ask for the same where it is made.
#[tactic(auto, unfolding(crate::specs::Record::entry_at, crate::specs::Record::identifier, crate::specs::Record::event_kind, crate::specs::Record::level))]
impl<'a> Record<'a> {
    pub fn of(bytes: &'a [u8]) -> Record<'a>
        requires { Framed bytes.now }
        ensures { result.bytes.now ≡ bytes.now }
    {
        Record { bytes }
    }

    pub fn bytes(self) -> &'a [u8]
        ensures { result.now ≡ self.entry.bytes.now }
    {
        self.bytes
    }

    // Its kind, if it is one of the three.
    pub fn kind(self) -> Option<Kind>
        ensures { result ≡ kind_with (kind self.entry.bytes.now) }
    {
        Kind::try_from(Part::kind(self.bytes)).ok()
    }

    pub fn lead(self) -> usize
        ensures value { result ≡ lead self.entry.bytes.now }
        ensures upper_bound { result < 256 }
    {
        Part::lead(self.bytes)
    }

    pub fn form(self) -> Form
        ensures value { result ≡ form_of self.entry.bytes.now }
        ensures below_256 { (result.listed ≤ 255) × (result.columns ≤ 255) }
    {
        Part::form(self.bytes)
    }

    // How many observers the part has.
    pub fn observers(self) -> usize
        ensures { result ≡ observers self.entry.bytes.now }
    {
        self.form().observers
    }

    // The level of observer o.
    pub fn observer(self, o: usize) -> u8
        requires { o < observers self.bytes.now }
        ensures { result ≡ observer self.entry.bytes.now o }
    {
        let at = self.form().levels + o;
        self.bytes[at]
    }

    pub fn states(self) -> usize
        ensures value { result ≡ states self.entry.bytes.now }
        ensures bounds { (1 ≤ result) × (result ≤ max_states) }
    {
        Part::states(self.bytes)
    }

    pub fn start(self) -> usize
        ensures { result ≡ start self.entry.bytes.now }
    {
        Part::start(self.bytes)
    }

    pub fn events(self) -> usize
        ensures value { result ≡ events self.entry.bytes.now }
        ensures bound { result ≤ max_events }
    {
        Part::events(self.bytes)
    }

    pub fn counts(self) -> Counts
        ensures value { result ≡ counts self.entry.bytes.now }
        ensures few { Few result }
    {
        Part::counts(self.bytes)
    }

    // Column j, as a part of the record.
    #[tactic(auto, unfolding(crate::specs::Record::column))]
    pub fn column(self, j: usize) -> &'a [u8]
        requires { j < (form_of self.bytes.now).columns }
        ensures { result.now ≡ column self.entry.bytes.now j }
    {
        let counts = self.counts();
        let at = counts.column_at(j);
        &self.bytes[at..at + counts.states]
    }

    // The class column of observer o.
    pub fn class_column(self, o: usize) -> &'a [u8]
        requires { o < observers self.bytes.now }
        ensures { result.now ≡ column self.entry.bytes.now o }
    {
        self.column(o)
    }

    // The fine column of observer o.
    pub fn fine_column(self, o: usize) -> &'a [u8]
        requires { o < observers self.bytes.now }
        ensures { result.now ≡ fine_column self.entry.bytes.now o }
    {
        self.column(self.form().finer + o)
    }

    // Where the entry of the event at place i stands.
    pub fn entry(self, i: usize) -> usize
        requires { i < events self.bytes.now }
        ensures { result ≡ entry_at self.entry.bytes.now i }
    {
        self.counts().entries_at() + Part::ENTRY * i
    }

    pub fn identifier(self, i: usize) -> usize
        requires { i < events self.bytes.now }
        ensures value { result ≡ identifier self.entry.bytes.now i }
        ensures upper_bound { result < 2 ^ 16 }
    {
        le::number::<2>(self.bytes, self.entry(i)) as usize
    }

    // The place of the event with identifier e.
    #[tactic(auto, using(crate::proofs::Places::looking))]
    pub fn place(self, e: usize) -> Option<usize>
        ensures { FindsPlace self.entry.bytes.now e result }
    {
        for i in 0..self.events() {
            if self.identifier(i) == e {
                return Some(i);
            }
        }
        None
    }

    // e lies between the identifiers before the place `near` and at it.
    fn in_gap(self, near: usize, e: usize) -> bool
        requires { Rising self.bytes.now }
        ensures { result ≡ true → place self.entry.bytes.now e ≡ none }
    {
        let m = self.events();
        near <= m
            && (near == m || e < self.identifier(near))
            && (near == 0 || self.identifier(near - 1) < e)
    }

    // As `place`, looked for at the place `near` first.
    #[tactic(auto, using(crate::proofs::Places::rising_place))]
    pub fn place_near(self, near: usize, e: usize) -> Option<usize>
        requires { Rising self.bytes.now }
        ensures { FindsPlace self.entry.bytes.now e result }
    {
        if near < self.events() && self.identifier(near) == e {
            return Some(near);
        }
        if self.in_gap(near, e) {
            return None;
        }
        self.place(e)
    }

    // The byte that says the kind of the event at place i.
    pub fn kind_byte(self, i: usize) -> u8
        requires { i < events self.bytes.now }
        ensures { result ≡ event_kind self.entry.bytes.now i }
    {
        self.bytes[self.entry(i) + 2]
    }

    pub fn event_kind(self, i: usize) -> EventKind
        requires { i < events self.bytes.now }
        ensures { machine_kind result ≡ kind_of (event_kind self.entry.bytes.now i) }
    {
        EventKind::from(self.kind_byte(i))
    }

    pub fn level(self, i: usize) -> u8
        requires { i < events self.bytes.now }
        ensures { result ≡ level self.entry.bytes.now i }
    {
        self.bytes[self.entry(i) + 3]
    }

    // Where the rows of the event at place i begin.
    #[tactic(auto, unfolding(crate::specs::Record::row_at))]
    pub fn rows(self, i: usize) -> usize
        requires { i < events self.bytes.now }
        ensures { result ≡ row_at self.entry.bytes.now i 0 }
    {
        let counts = self.counts();
        counts.rows_at() + Part::ROW * (i * counts.states)
    }

    pub fn row(self, i: usize, s: usize) -> u64
        requires i_bound { i < events self.bytes.now }
        requires s_bound { s < states self.bytes.now }
        ensures { result ≡ row self.entry.bytes.now i s }
    {
        self.row_from(self.rows(i), i, s)
    }

    // As `row`, from where the event's rows begin: a loop over the rows finds that once.
    #[tactic(auto, using(crate::proofs::Fields::row_from), unfolding(crate::specs::Record::row))]
    pub fn row_from(self, at: usize, i: usize, s: usize) -> u64
        requires i_bound { i < events self.bytes.now }
        requires s_bound { s < states self.bytes.now }
        requires at_value { at ≡ row_at self.bytes.now i 0 }
        ensures { result ≡ row self.entry.bytes.now i s }
    {
        le::number::<8>(self.bytes, at + Part::ROW * s)
    }

    // Over the start of out: the rows of the event at place i.
    pub fn copy_rows(self, out: &mut [u64; 64], i: usize)
        requires { i < events self.bytes.now }
        ensures { Filled (words_of (row self.entry.bytes.now i)) (states self.entry.bytes.now) out.old out.new }
    {
        let at = self.rows(i);
        for (s, row) in out[..self.states()].iter_mut().enumerate() {
            *row = self.row_from(at, i, s);
        }
    }
}
