// The joined record over the end record (specs/Calls.antt).
ghost use Rattle.std.specs.Prelude.{◌≡◌};
ghost use Rattle.restrictive.specs.Verdict.{pass, verdict};
ghost use Rattle.store.specs.Answers.{answer_of};
ghost use Rattle.store.specs.Found.{joined_behind};

use crate::answer::Refusal;
use crate::append::put_end;
use join::joint::Joint;
use part::{Part, Record};
use screening::Screened;

// Appends the joined record of two passing records at the end record's place, where back begins, as number n;
// 9, 10, 11, 15.
pub fn append_joined<'a>(
    back: &mut [u8],
    n: usize,
    a: &'a [u8],
    b: &'a [u8],
) -> Result<usize, Refusal>
    requires a_passes { verdict a.now ≡ pass }
    requires b_passes { verdict b.now ≡ pass }
    ensures result_value { answer_of result ≡ (joined_behind n back.old a.now b.now).answer }
    ensures back_after { back.new ≡ (joined_behind n back.old a.now b.now).shelf }
{
    let joint = Joint::new(Screened::of(Record::of(a)), Screened::of(Record::of(b)))?;
    let size = joint.size();
    if back.len() < size + Part::HEADER {
        return Err(Refusal::NoRoom);
    }
    joint.write(back);
    put_end(back, size);
    Ok(n)
}
