// Count and Part (document 01, "The shelf").
ghost use Rattle.std.specs.Prelude.{◌≡◌};
ghost use Rattle.store.specs.Answers.{answer_of};
ghost use Rattle.store.specs.Reading.{count, part};

use crate::answer::Refusal;
use crate::record::record_at;
use crate::walk::walk;

// The number of records before the end record.
pub fn count(s: &[u8]) -> Result<usize, Refusal>
    ensures { answer_of result ≡ count s.now }
{
    let end = walk(s)?;
    Ok(end.records)
}

// The bytes of record i, as a part of the shelf; empty where there is none.
pub fn part(s: &[u8], i: usize) -> &[u8]
    ensures { result.now ≡ part s.now i }
{
    match walk(s) {
        Ok(end) if i < end.records => record_at(s, i),
        _ => &s[..0],
    }
}
