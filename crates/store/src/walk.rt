// The walk over a shelf (specs/Walk.antt).
ghost use Rattle.store.specs.Found.{Finds};

use crate::found::{End, NoEnd};
use crate::records::{Records, is_end};

// Goes from record to record, to the end record. The loop sums two numbers, so that neither `count` nor `sum` says it.
pub fn walk(s: &[u8]) -> Result<End, NoEnd>
    ensures { Finds result s.now }
{
    let mut end = End {
        records: 0,
        place: 0,
    };
    for record in Records::of(s) {
        end.records += 1;
        end.place += record.len();
    }
    if !is_end(&s[end.place..]) {
        return Err(NoEnd);
    }
    Ok(end)
}
