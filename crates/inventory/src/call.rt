// The calls: what a host reads of a shelf (document 01, "The shelf": Count and Part).
ghost use Rattle.std.specs.Prelude.{◌≡◌, length};
ghost use Rattle.words.specs.Laid.{laid_unless};
ghost use Rattle.inventory.specs.Inventory.{count_told, part_told, bytes, refusal};
ghost use Rattle.inventory.specs.Answers.{refusal_of};

use crate::answer::Untold;
use store::record::extent;
use store::walk::walk;
use words::le;

// The bytes of a number.
const NUMBER: usize = 8;

// How many records there are, at the start of out, whose later bytes stay; or why not, and then out stays as it was.
pub fn tell_count(shelf: &[u8], out: &mut [u8]) -> Result<(), Untold>
    ensures result_value { refusal_of result ≡ refusal (count_told shelf.now) (length out.old) }
    ensures out_after { out.new ≡ laid_unless (refusal_of result) (bytes (count_told shelf.now)) out.old }
{
    let end = walk(shelf)?;
    if out.len() < NUMBER {
        return Err(Untold::NoRoom);
    }
    le::put::<8>(out, 0, end.records as u64);
    Ok(())
}

// Where record i stands and how many bytes it has, in the same way. A function for both would take the refusals and the
// numbers that differ, and leave three lines.
pub fn tell_part(shelf: &[u8], i: usize, out: &mut [u8]) -> Result<(), Untold>
    ensures result_value { refusal_of result ≡ refusal (part_told shelf.now i) (length out.old) }
    ensures out_after { out.new ≡ laid_unless (refusal_of result) (bytes (part_told shelf.now i)) out.old }
{
    let end = walk(shelf)?;
    if end.records <= i {
        return Err(Untold::NoPart);
    }
    if out.len() < 2 * NUMBER {
        return Err(Untold::NoRoom);
    }
    let standing = extent(shelf, i);
    le::put::<8>(out, 0, standing.place as u64);
    le::put::<8>(out, NUMBER, standing.size as u64);
    Ok(())
}
