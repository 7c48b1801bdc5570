// The call: the verdict on a record in numbers (requests f, k and l).
ghost use Rattle.std.specs.Prelude.{◌≡◌, cond, ltb, length, get_or};
ghost use Rattle.bounded.specs.Search.{each};
ghost use Rattle.words.specs.Laid.{over};
ghost use Rattle.words.specs.LittleEndian.{digits};
ghost use Rattle.restrictive.specs.Verdict.{refused};
ghost use Rattle.restrictive.specs.Answers.{verdict_of};
ghost use Rattle.explain.specs.Explanation.{explained, buffer_after};
ghost use Rattle.explain.specs.Answers.{explaining_of};

use crate::answer::NoRoom;
use restrictive::call::check;
use restrictive::{Failure, Verdict};
use words::le;

// How many bytes an explanation has.
const BYTES: usize = 64;

// A verdict, with its numbers at the start of out; or that they have no room there.
fn tell(out: &mut [u8], verdict: Verdict, numbers: &[u64; 8]) -> Result<Verdict, NoRoom>
    ensures result_value { explaining_of result ≡ cond (ltb (length out.old) 64) (refused 15) (verdict_of verdict) }
    ensures out_after { out.new ≡ cond (ltb (length out.old) 64) out.old (over out.old 0 (each 8 (λ i. digits 8 (get_or numbers.now i 0)))) }
{
    if out.len() < BYTES {
        return Err(NoRoom);
    }
    le::put_words(out, 0, numbers);
    Ok(verdict)
}

// The verdict, with its explanation at the start of out, whose later bytes stay; or that this has no room, and then out stays as it was.
pub fn explain(bytes: &[u8], out: &mut [u8]) -> Result<Verdict, NoRoom>
    ensures result_value { explaining_of result ≡ explained bytes.now (length out.old) }
    ensures out_after { out.new ≡ buffer_after bytes.now out.old }
{
    let verdict = check(bytes);
    match verdict {
        Ok(pass) => {
            let taken = pass.taken as u64;
            let limit = pass.limit as u64;
            let numbers = [0, 0, 0, 0, 0, taken, 0, limit];
            tell(out, verdict, &numbers)
        }
        Err(Failure::Refused(_)) => Ok(verdict),
        Err(Failure::Breaks(found)) => {
            let v = found.violation;
            let taken = found.taken as u64;
            let level = v.level as u64;
            let numbers = [
                v.rule.number() as u64,
                v.event as u64,
                v.s as u64,
                v.t as u64,
                v.u as u64,
                taken,
                level,
                0,
            ];
            tell(out, verdict, &numbers)
        }
    }
}
