// The kinds of record and of event by their numbers (specs/Kinds.antt), and the counts on which a record's format depends
// (specs/Format.antt).
ghost use Rattle.std.specs.Prelude.{◌≡◌};
ghost use Rattle.part.specs.Events.{kind_of};
ghost use Rattle.part.specs.Kinds.{kind_number, machine_kind, ReadsKind};

// A record with one observer, with several, and a limited one, with one observer and a finer column.
#[derive(Clone, Copy, PartialEq, Eq)]
pub enum Kind {
    Single = 1,
    Several = 2,
    Limited = 3,
}

// A number that stands for no kind of record.
#[derive(Clone, Copy, PartialEq, Eq)]
pub struct UnknownKind(pub usize);

#[tactic(auto, unfolding(crate::specs::Kinds::kind_with))]
impl TryFrom<usize> for Kind {
    type Error = UnknownKind;

    ghost try_from_gives = { ReadsKind };

    fn try_from(number: usize) -> Result<Self, UnknownKind> {
        match number {
            1 => Ok(Kind::Single),
            2 => Ok(Kind::Several),
            3 => Ok(Kind::Limited),
            _ => Err(UnknownKind(number)),
        }
    }
}

impl From<Kind> for usize {
    ghost from_gives = { λ kind number. number ≡ kind_number kind };

    fn from(kind: Kind) -> usize {
        kind as usize
    }
}

// The kinds of event, by their kind bytes.
#[derive(Clone, Copy, PartialEq, Eq)]
pub enum EventKind {
    Input = 0,
    Output = 1,
    Internal = 2,
}

// A kind byte above 2, which no accepted record has, is read as internal.
impl From<u8> for EventKind {
    ghost from_gives = { λ byte kind. machine_kind kind ≡ kind_of byte };

    fn from(byte: u8) -> EventKind {
        match byte {
            0 => EventKind::Input,
            1 => EventKind::Output,
            _ => EventKind::Internal,
        }
    }
}

// What a record of some kind has besides its table.
#[derive(Clone, Copy)]
pub struct Form {
    // How many observers it has, and where their levels begin.
    pub observers: usize,
    pub levels: usize,
    // How many levels are listed behind the four numbers, and how many columns stand behind these.
    pub listed: usize,
    pub columns: usize,
    // How many columns behind its class column the fine column of an observer stands.
    pub finer: usize,
}

// The form, and how many states and how many events a part has.
#[derive(Clone, Copy)]
pub struct Counts {
    pub form: Form,
    pub states: usize,
    pub events: usize,
}
