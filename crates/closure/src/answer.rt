// The answer of the call. specs/Answers.antt gives it its number.
ghost use Rattle.std.specs.Prelude.{◌≡◌};
ghost use Rattle.closure.specs.declared.answer.Unlisted.TheVariants.{Refused};

use screening::Rejection;

// Why the closures are not listed.
#[derive(Clone, Copy)]
pub enum Unlisted {
    Refused(Rejection),
    NoRoom,
}

impl From<Rejection> for Unlisted {
    ghost from_gives = { λ rejection e. e ≡ Refused rejection };

    fn from(rejection: Rejection) -> Unlisted {
        Unlisted::Refused(rejection)
    }
}
