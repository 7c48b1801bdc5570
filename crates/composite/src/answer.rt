// Why there is no joined record. specs/Answers.antt gives each answer its number and values.
ghost use Rattle.std.specs.Prelude.{◌≡◌};

use restrictive::Failure;

// Why there is no joined record of two passing parts.
#[derive(Clone, Copy)]
pub enum Obstacle {
    ObserversDiffer,
    // The smallest identifier under which the two parts clash.
    Clash(usize),
    TooLarge,
}

// Which of the two records an answer speaks of: A is the first, B the second.
#[derive(Clone, Copy)]
pub enum Side {
    First,
    Second,
}

// Why a call joins nothing.
#[derive(Clone, Copy)]
pub enum Unjoined {
    // A record's own refusal or break.
    Unfit(Side, Failure),
    Stopped(Obstacle),
    NoRoom,
}

impl From<Obstacle> for Unjoined {
    ghost use Rattle.composite.specs.declared.answer.Unjoined.TheVariants.{Stopped};

    ghost from_gives = { λ o r. r ≡ Stopped o };

    fn from(obstacle: Obstacle) -> Unjoined {
        Unjoined::Stopped(obstacle)
    }
}
