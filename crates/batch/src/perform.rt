// One call of a script on a shelf.
ghost use Rattle.script.specs.Answers.{operation_of_call};
ghost use Rattle.store.specs.Answers.{answer_of};
ghost use Rattle.batch.specs.Performed.{Answered};

use script::operation::Call;
use store::answer::Refusal;
use store::call::{clear, hookup, load};

// Makes a call of a script.
pub fn perform(call: Call<'_>, shelf: &mut [u8]) -> Result<usize, Refusal>
    ensures { Answered (operation_of_call call.entry) shelf.old (answer_of result) shelf.new }
{
    match call {
        Call::Clear => clear(shelf),
        Call::Load(record) => load(shelf, record),
        Call::Hookup(i, j) => hookup(shelf, i, j),
    }
}
