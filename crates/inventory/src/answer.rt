// Why nothing is told of a shelf. specs/Answers.antt gives each its number.
ghost use Rattle.std.specs.Prelude.{◌≡◌};
ghost use Rattle.inventory.specs.Answers.{number_of};

use store::found::NoEnd;

#[derive(Clone, Copy)]
pub enum Untold {
    NoEnd,
    // There is no record of this number.
    NoPart,
    NoRoom,
}

impl Untold {
    // The number that the documents give it.
    pub fn number(self) -> u32
        ensures { result ≡ number_of self }
    {
        match self {
            Untold::NoEnd => 12,
            Untold::NoPart => 13,
            Untold::NoRoom => 15,
        }
    }
}

impl From<NoEnd> for Untold {
    ghost use Rattle.inventory.specs.declared.answer.Untold.TheVariants as untold;

    ghost from_gives = { λ _ u. u ≡ untold.NoEnd };

    fn from(_none: NoEnd) -> Untold {
        Untold::NoEnd
    }
}
