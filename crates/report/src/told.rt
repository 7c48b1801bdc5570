// What a line tells: a verdict by its numbers (specs/Told.antt). They are no `Rule` and no `Verdict`, since a line is
// promised for any numbers, also for such as Check never gives.
ghost use Rattle.std.specs.Prelude.{◌≡◌};
ghost use Rattle.restrictive.specs.Answers.{violation_of, verdict_of};
ghost use Rattle.report.specs.Told.{numbers_of, told_of};

use restrictive::{Failure, Verdict, Violation};
use screening::Rejection;

// A break: the observer's level, the rule's number, the event's identifier, and the states.
#[derive(Clone, Copy)]
pub struct Numbers {
    pub level: u8,
    pub rule: usize,
    pub event: usize,
    pub s: usize,
    pub t: usize,
    pub u: usize,
}

impl From<Violation> for Numbers {
    ghost from_gives = { λ v n. numbers_of n ≡ violation_of v };

    #[tactic(auto, unfolding(crate::specs::Told::numbers_of, restrictive::specs::Answers::violation_of))]
    fn from(v: Violation) -> Numbers {
        Numbers {
            level: v.level,
            rule: v.rule.number(),
            event: v.event,
            s: v.s,
            t: v.t,
            u: v.u,
        }
    }
}

#[derive(Clone, Copy)]
pub enum Told {
    Pass,
    Refused(Rejection),
    Break(Numbers),
}

impl From<Verdict> for Told {
    ghost from_gives = { λ v told. told_of told ≡ verdict_of v };

    #[tactic(auto, unfolding(crate::specs::Told::told_of, restrictive::specs::Answers::verdict_of, restrictive::specs::Answers::failure_of))]
    fn from(v: Verdict) -> Told {
        match v {
            Ok(_) => Told::Pass,
            Err(Failure::Refused(r)) => Told::Refused(r),
            Err(Failure::Breaks(found)) => Told::Break(Numbers::from(found.violation)),
        }
    }
}
