// The events of a record: which of them a rule speaks of, and where one leads.
ghost use Rattle.std.specs.Prelude.{suc, ◌<◌, ◌≡◌, ◌||◌, ◌&&◌, eqb, get_or};
ghost use Rattle.words.specs.Arrays.{Filled, sets_of};
ghost use Rattle.words.specs.Sets.{bit, Represents, gathered};
ghost use Rattle.part.specs.Record.{states, events, row};
ghost use Rattle.relations.specs.Sets.{place_of, seen_at, RolesOf};

use level::Level;
use part::{EventKind, Record};
use words::set;

// The five rules, in their order, each named after the events that it speaks of.
#[derive(Clone, Copy, PartialEq, Eq)]
pub enum Rule {
    Inputs,
    HighInputs,
    LowInputs,
    SilentEvents,
    LowOutputs,
}

impl Rule {
    // Its number, from 1.
    pub fn number(self) -> usize
        ensures { result ≡ suc (place_of self) }
    {
        match self {
            Rule::Inputs => 1,
            Rule::HighInputs => 2,
            Rule::LowInputs => 3,
            Rule::SilentEvents => 4,
            Rule::LowOutputs => 5,
        }
    }
}

// The events that the rules speak of, as a set for each rule.
#[derive(Clone, Copy)]
pub struct Roles {
    pub inputs: u64,
    pub high_inputs: u64,
    pub low_inputs: u64,
    pub silent_events: u64,
    pub low_outputs: u64,
}

// The set, and i with it where the test holds.
fn mark(x: u64, i: usize, test: bool) -> u64
    requires { i < 64 }
    ensures { Represents result (λ j. bit x j || eqb i j && test) }
{
    if test {
        set::union(x, set::single(i))
    } else {
        x
    }
}

// The observer sees the event at place i: an input or an output at a low level, and no internal event.
fn is_seen(b: Record, observer: u8, i: usize) -> bool
    requires { i < events b.bytes.now }
    ensures { result ≡ seen_at b.entry.bytes.now observer i }
{
    match b.event_kind(i) {
        EventKind::Internal => false,
        EventKind::Input | EventKind::Output => Level::is_low(observer, b.level(i)),
    }
}

impl Roles {
    // The roles of a record's events for an observer of this level.
    pub fn of(b: Record, observer: u8) -> Roles
        ensures { RolesOf b.entry.bytes.now observer result }
    {
        let mut inputs = 0;
        let mut seen = 0;
        let mut unseen = 0;
        for i in 0..b.events() {
            let sees = is_seen(b, observer, i);
            inputs = mark(inputs, i, b.event_kind(i) == EventKind::Input);
            seen = mark(seen, i, sees);
            unseen = mark(unseen, i, !sees);
        }
        Roles {
            inputs,
            high_inputs: set::intersection(inputs, unseen),
            low_inputs: set::intersection(inputs, seen),
            silent_events: set::difference(unseen, inputs),
            low_outputs: set::difference(seen, inputs),
        }
    }
}

// Over the start of out: of each state, what the event at place i leads to, looked up in the table.
pub fn look_up(out: &mut [u64; 64], b: Record, i: usize, table: &[u64; 64])
    requires { i < events b.bytes.now }
    ensures { Filled (sets_of (λ s. gathered 64 (row b.entry.bytes.now i s) table.now)) (states b.entry.bytes.now) out.old out.new }
{
    let at = b.rows(i);
    for s in 0..b.states() {
        out[s] = set::gather(b.row_from(at, i, s), table);
    }
}
