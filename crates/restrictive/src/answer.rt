// The answers of Check, and the cases that it judges. specs/Answers.antt gives each answer its meaning.
ghost use Rattle.std.specs.Prelude.{◌≡◌};
ghost use Rattle.restrictive.specs.declared.answer.Failure.TheVariants.{Refused, Breaks};

use relations::event::Rule;
use screening::Rejection;

// A violation of a rule (document 01: a break): the level of the observer concerned, the rule, the event's identifier, and the states s, t, u.
#[derive(Clone, Copy)]
pub struct Violation {
    pub level: u8,
    pub rule: Rule,
    pub event: usize,
    pub s: usize,
    pub t: usize,
    pub u: usize,
}

// A violation, and how many states were taken up before it was found.
#[derive(Clone, Copy)]
pub struct Break {
    pub violation: Violation,
    pub taken: usize,
}

// Rules 1 to 3 take up no state.
impl From<Violation> for Break {
    ghost from_gives = { λ violation e. e ≡ record { violation = violation; taken = 0 } };

    fn from(violation: Violation) -> Break {
        Break {
            violation,
            taken: 0,
        }
    }
}

// A record passes: how many states were taken up, and its limit.
#[derive(Clone, Copy)]
pub struct Pass {
    pub taken: usize,
    pub limit: usize,
}

// Why a record does not pass.
#[derive(Clone, Copy)]
pub enum Failure {
    Refused(Rejection),
    Breaks(Break),
}

impl From<Rejection> for Failure {
    ghost from_gives = { λ rejection e. e ≡ Refused rejection };

    fn from(rejection: Rejection) -> Failure {
        Failure::Refused(rejection)
    }
}

impl From<Break> for Failure {
    ghost from_gives = { λ found e. e ≡ Breaks found };

    fn from(found: Break) -> Failure {
        Failure::Breaks(found)
    }
}

// The verdict of Check.
pub type Verdict = Result<Pass, Failure>;

// One event under one rule: the rule, and the event's place.
#[derive(Clone, Copy)]
pub struct Case {
    pub rule: Rule,
    pub event: usize,
}
