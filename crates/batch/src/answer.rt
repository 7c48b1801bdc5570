// Why a script is not run. specs/Answers.antt gives each its number.
ghost use Rattle.std.specs.Prelude.{◌≡◌};
ghost use Rattle.batch.specs.Answers.{number_of};

use script::operation::Stop;

#[derive(Clone, Copy)]
pub enum NotRun {
    // Something else than calls of Clear, Load and Hookup stands in the script.
    Malformed,
    // Too few bytes for the answers.
    TooFew,
}

impl NotRun {
    // The number that a host is told.
    pub fn number(self) -> u32
        ensures { result ≡ number_of self }
    {
        match self {
            NotRun::Malformed => 99,
            NotRun::TooFew => 15,
        }
    }
}

impl From<Stop> for NotRun {
    ghost use Rattle.batch.specs.declared.answer.NotRun.TheVariants.{Malformed};

    ghost from_gives = { λ _ why. why ≡ Malformed };

    fn from(_stop: Stop) -> NotRun {
        NotRun::Malformed
    }
}
