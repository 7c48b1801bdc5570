// The call: the closures of a record's states (requests c and f).
ghost use Rattle.std.specs.Prelude.{◌≡◌, length};
ghost use Rattle.words.specs.Laid.{laid_unless};
ghost use Rattle.closure.specs.Closures.{pieces, refusal};
ghost use Rattle.closure.specs.Answers.{refusal_of};

use crate::answer::Unlisted;
use crate::writer::{block_size, put_pieces};
use screening::screen;

// For each observer and each state of the record its silent closure as a set, its visits and their distances, at the start of out, whose
// later bytes stay; or why not, and then out stays as it was.
pub fn list_closures(bytes: &[u8], out: &mut [u8]) -> Result<(), Unlisted>
    ensures result_value { refusal_of result ≡ refusal bytes.now (length out.old) }
    ensures out_after { out.new ≡ laid_unless (refusal_of result) (pieces bytes.now) out.old }
{
    let accepted = screen(bytes)?;
    if out.len() < accepted.record.observers() * block_size(accepted) {
        return Err(Unlisted::NoRoom);
    }
    put_pieces(out, accepted);
    Ok(())
}
