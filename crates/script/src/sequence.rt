// The operations of a script one by one.
ghost use Rattle.std.specs.Prelude.{◌≡◌};

use crate::decode;
use crate::operation::{Operation, Stop};

// The operations from the start of `rest` to where the script ends, or to the first that cannot be read.
#[derive(Drop)]
pub struct Operations<'a> {
    rest: &'a [u8],
}

impl<'a> Operations<'a> {
    pub fn of(script: &'a [u8]) -> Operations<'a>
        ensures { result.rest.now ≡ script.now }
    {
        Operations { rest: script }
    }
}

impl<'a> Iterator for Operations<'a> {
    ghost use Rattle.std.specs.Iterator.{YieldsFirstBy, item_count};
    ghost use Rattle.script.specs.Answers.{item_of};
    ghost use Rattle.script.specs.Sequence.{operations};

    type Item = Result<Operation<'a>, Stop>;

    ghost next_gives = { YieldsFirstBy item_of (λ s. operations s.rest.now) };

    ghost remaining = { item_count (λ s. operations s.rest.now) };

    #[tactic(auto, using(crate::proofs::Operations::nexts), unfolding(crate::specs::Answers::read_of, crate::specs::Answers::item_of))]
    fn next(&mut self) -> Option<Result<Operation<'a>, Stop>> {
        match decode(self.rest) {
            Ok(None) => None,
            Ok(Some(operation)) => {
                self.rest = &self.rest[operation.size()..];
                Some(Ok(operation))
            }
            Err(stop) => {
                self.rest = &[];
                Some(Err(stop))
            }
        }
    }
}
