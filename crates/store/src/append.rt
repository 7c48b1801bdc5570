// A record over the end record, and a new end record behind it (specs/Calls.antt).
ghost use Rattle.std.specs.Prelude.{◌≡◌, ◌+◌, ◌≤◌, length};
ghost use Rattle.words.specs.Laid.{over};
ghost use Rattle.store.specs.Answers.{answer_of};
ghost use Rattle.store.specs.Calls.{end_bytes, append};
ghost use Rattle.store.specs.Found.{Ends};
ghost use Rattle.store.specs.Walk.{records};

use crate::answer::Refusal;
use crate::found::End;
use part::Part;
use words::copy::lay;

// The end record at place at.
pub fn put_end(s: &mut [u8], at: usize)
    requires { at + 6 ≤ length s.old }
    ensures { s.new ≡ over s.old at end_bytes }
{
    s[at..at + Part::HEADER].fill(0);
}

// Appends the record r at the end record's place, and answers with its number; 15.
pub fn append(s: &mut [u8], end: End, r: &[u8]) -> Result<usize, Refusal>
    requires { Ends s.old end.records end.place }
    ensures result_value { answer_of result ≡ (append s.old (records s.old) r.now).answer }
    ensures s_after { s.new ≡ (append s.old (records s.old) r.now).shelf }
{
    let End { records, place } = end;
    if s.len() - place < r.len() + Part::HEADER {
        return Err(Refusal::NoRoom);
    }
    let behind = lay(r, s, place);
    put_end(s, behind);
    Ok(records)
}
