// The calls of a script (specs/Script.antt).
ghost use Rattle.batch.specs.Listing.{Counts};

use crate::answer::NotRun;
use script::operation::Operation;
use script::sequence::Operations;

// How many calls a script has.
pub fn listing(script: &[u8]) -> Result<usize, NotRun>
    ensures { Counts result script.now }
{
    let mut n = 0;
    for item in Operations::of(script) {
        let Operation::Call(_) = item? else {
            return Err(NotRun::Malformed);
        };
        n += 1;
    }
    Ok(n)
}
