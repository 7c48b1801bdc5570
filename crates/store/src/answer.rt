// The answer of a call on a shelf: a number, or why there is none. specs/Answers.antt gives each case its meaning.
ghost use Rattle.std.specs.Prelude.{◌≡◌};
ghost use Rattle.store.specs.Answers.{refusal_of};
ghost use Rattle.store.specs.Answer.{number_of};

use crate::found::NoEnd;
use composite::answer::Obstacle;
use restrictive::{Failure, Violation};
use screening::Rejection;

#[derive(Clone, Copy)]
pub enum Refusal {
    NoEnd,
    // There is no record of this number.
    NoPart,
    // A record on the shelf does not pass Check.
    Unfit,
    NoRoom,
    // The record that is loaded is rejected, or breaks a rule.
    Rejected(Rejection),
    Breaks(Violation),
    // Two parts are not joined.
    ObserversDiffer,
    // The smallest identifier under which they clash.
    Clash(usize),
    TooLarge,
}

impl Refusal {
    // The number that the documents give it; of a break the rule's.
    #[tactic(auto, unfolding(restrictive::specs::Answers::violation_of))]
    pub fn number(self) -> usize
        ensures { result ≡ number_of (refusal_of self) }
    {
        match self {
            Refusal::NoEnd => 12,
            Refusal::NoPart => 13,
            Refusal::Unfit => 14,
            Refusal::NoRoom => 15,
            Refusal::Rejected(r) => r.number() as usize,
            Refusal::Breaks(v) => v.rule.number(),
            Refusal::ObserversDiffer => 9,
            Refusal::Clash(_) => 10,
            Refusal::TooLarge => 11,
        }
    }
}

impl From<NoEnd> for Refusal {
    ghost use Rattle.store.specs.declared.answer.Refusal.TheVariants as refusal;

    ghost from_gives = { λ _ r. r ≡ refusal.NoEnd };

    fn from(_none: NoEnd) -> Refusal {
        Refusal::NoEnd
    }
}

impl From<Obstacle> for Refusal {
    ghost use Rattle.composite.specs.Answers.{obstacle_of};
    ghost use Rattle.store.specs.Answer.{obstacle_answer};

    ghost from_gives = { λ o r. refusal_of r ≡ obstacle_answer (obstacle_of o) };

    #[tactic(auto, unfolding(composite::specs::Answers::obstacle_of, crate::specs::Answer::obstacle_answer))]
    fn from(obstacle: Obstacle) -> Refusal {
        match obstacle {
            Obstacle::ObserversDiffer => Refusal::ObserversDiffer,
            Obstacle::Clash(e) => Refusal::Clash(e),
            Obstacle::TooLarge => Refusal::TooLarge,
        }
    }
}

impl From<Failure> for Refusal {
    ghost use Rattle.store.specs.Answers.{failure_answer};

    ghost from_gives = { λ f r. refusal_of r ≡ failure_answer f };

    fn from(failure: Failure) -> Refusal {
        match failure {
            Failure::Refused(rejection) => Refusal::Rejected(rejection),
            Failure::Breaks(found) => Refusal::Breaks(found.violation),
        }
    }
}
