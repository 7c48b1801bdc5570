// The search for the first violation, for one observer.
ghost use Rattle.std.proofs.Props.{props};
ghost use Rattle.relations.specs.Sets.{Sound};

use part::Record;
use partition::Columns;

// A record, the level of its observer, and its columns.
#[derive(Clone, Copy)]
pub struct Search<'a> {
    pub b: Record<'a>,
    pub observer: u8,
    pub columns: Columns<'a>,
    pub ghost sound: { Sound b.bytes.now columns.column.classes.now columns.fine.classes.now } by { Prim.hlevel props },
}
