// A script of Clear, Load and Hookup calls run on a shelf (specs/Running.antt).
ghost use Rattle.std.specs.Prelude.{◌≡◌, ◌*◌, ◌≤◌, length};
ghost use Rattle.std.proofs.Math.Option.{some};
ghost use Rattle.words.specs.Laid.{over};
ghost use Rattle.store.specs.Demand.{shelf_after, shelf_answers};
ghost use Rattle.batch.specs.Answers.{refusal_of};
ghost use Rattle.batch.specs.Running.{refusal, made};
ghost use Rattle.batch.specs.Script.{calls, listed};
ghost use Rattle.batch.specs.Slots.{slots};

use crate::answer::NotRun;
use crate::listing::listing;
use crate::perform::perform;
use crate::slot::put_answer;
use script::operation::Operation;
use script::sequence::Operations;

// The bytes of an answer.
const SLOT: usize = 64;

// Makes all calls of the script.
fn perform_all(script: &[u8], shelf: &mut [u8], out: &mut [u8])
    requires script_value { calls script.now ≡ some (listed script.now) }
    requires has_room { length (listed script.now) * 64 ≤ length out.old }
    ensures shelf_after { shelf.new ≡ shelf_after (listed script.now) shelf.old }
    ensures out_after { out.new
        ≡ over out.old 0 (slots (shelf_answers (listed script.now) shelf.old)) }
{
    // Where the next answer begins: a place in bytes, which goes on by the size of an answer.
    let mut slot = 0;
    for item in Operations::of(script) {
        let Ok(operation) = item else {
            return;
        };
        let Operation::Call(call) = operation else {
            return;
        };
        put_answer(out, slot, perform(call, shelf));
        slot += SLOT;
    }
}

// Makes all calls of the script, and lays an answer of 64 bytes for each over the start of out; or none, where that
// cannot be.
pub fn run(script: &[u8], shelf: &mut [u8], out: &mut [u8]) -> Result<(), NotRun>
    ensures result_value { refusal_of result ≡ refusal script.now (length out.old) }
    ensures shelf_after { shelf.new
        ≡ shelf_after (made script.now (length out.old)) shelf.old }
    ensures out_after { out.new
        ≡ over out.old 0 (slots (shelf_answers (made script.now (length out.old)) shelf.old)) }
{
    let n = listing(script)?;
    if out.len() / SLOT < n {
        return Err(NotRun::TooFew);
    }
    perform_all(script, shelf, out);
    Ok(())
}
