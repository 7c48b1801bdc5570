// What the line of an answer tells (specs/Told.antt): the answer by its numbers. They are no `Refusal`, since a line is
// promised for any numbers, also for such as no call gives.
ghost use Rattle.std.specs.Prelude.{◌≡◌};
ghost use Rattle.store.specs.Answers.{answer_of};
ghost use Rattle.transcript.specs.Told.{told_of};

use report::told::Numbers;
use store::answer::Refusal;

#[derive(Clone, Copy)]
pub enum Told {
    Gives(usize),
    // A refusal's number.
    Refused(usize),
    // The smallest identifier under which two parts clash.
    Clash(usize),
    Breaks(Numbers),
}

impl From<Result<usize, Refusal>> for Told {
    ghost from_gives = { λ a told. told_of told ≡ answer_of a };

    #[tactic(auto, unfolding(crate::specs::Told::told_of, report::specs::Told::numbers_of))]
    fn from(answer: Result<usize, Refusal>) -> Told {
        match answer {
            Ok(n) => Told::Gives(n),
            Err(Refusal::Breaks(v)) => Told::Breaks(Numbers::from(v)),
            Err(Refusal::Clash(e)) => Told::Clash(e),
            Err(refusal) => Told::Refused(refusal.number()),
        }
    }
}
