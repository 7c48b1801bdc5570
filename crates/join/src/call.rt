// Join (document 01, "The shelf").
ghost use Rattle.std.specs.Prelude.{◌≡◌, length, Err, IfOk, IfErr};
ghost use Rattle.restrictive.specs.Verdict.{pass, verdict};
ghost use Rattle.composite.specs.Joined.{joined};
ghost use Rattle.composite.specs.Joining.{Joining, unless_unfit, joining, buffer_after};
ghost use Rattle.composite.specs.Answers.{side_of, joining_of};

use crate::joint::Joint;
use composite::answer::{Side, Unjoined};
use part::Record;
use restrictive::call::check;
use screening::Screened;

// The record, where it passes.
fn passing<'a>(bytes: &'a [u8], side: Side) -> Result<Screened<'a>, Unjoined>
    ensures passes { IfOk result (λ screened. (screened.record.bytes.now ≡ bytes.now) × (verdict bytes.now ≡ pass)) }
    ensures unfit { IfErr result (λ answer. (next : Joining)
        → unless_unfit (side_of side) (verdict bytes.now) next ≡ joining_of (Err answer)) }
{
    match check(bytes) {
        Ok(_) => Ok(Screened::of(Record::of(bytes))),
        Err(failure) => Err(Unjoined::Unfit(side, failure)),
    }
}

// The joined record of a and b at the start of out, whose later bytes stay, and its length; or why there is none, and then out stays as it was.
pub fn join<'a>(a: &'a [u8], b: &'a [u8], out: &mut [u8]) -> Result<usize, Unjoined>
    ensures result_value { joining_of result ≡ joining a.now b.now (length out.old) }
    ensures out_after { out.new ≡ buffer_after (joining_of result) (joined a.now b.now) out.old }
{
    let first = passing(a, Side::First)?;
    let second = passing(b, Side::Second)?;
    let joint = Joint::new(first, second)?;
    let size = joint.size();
    if out.len() < size {
        return Err(Unjoined::NoRoom);
    }
    joint.write(out);
    Ok(size)
}
