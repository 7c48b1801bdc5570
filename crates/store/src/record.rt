// A record of a shelf.
ghost use Rattle.std.specs.Prelude.{◌≡◌, ◌<◌, [], length, get_or};
ghost use Rattle.std.proofs.Math.Option.{some};
ghost use Rattle.store.specs.Found.{Spans};
ghost use Rattle.store.specs.Leading.{leading};
ghost use Rattle.store.specs.Reading.{part};
ghost use Rattle.store.specs.Walk.{walk, records};

use crate::found::Extent;
use crate::records::Records;

// The bytes of record i, where so many stand at the start.
pub(crate) fn record(s: &[u8], i: usize) -> &[u8]
    requires { i < length (leading s.now) }
    ensures { result.now ≡ get_or (leading s.now) i [] }
{
    Records::of(s).nth(i).unwrap()
}

// Where record i stands: one walk, past the records before it.
pub fn extent(s: &[u8], i: usize) -> Extent
    requires s_value { walk s.now ≡ some (records s.now) }
    requires i_in_bounds { i < length (records s.now) }
    ensures { Spans s.now i result }
{
    let mut records = Records::of(s);
    let mut place = 0;
    for _ in 0..i {
        place += records.next().unwrap().len();
    }
    Extent {
        place,
        size: records.next().unwrap().len(),
    }
}

// The bytes of record i, as a part of the shelf.
pub fn record_at(s: &[u8], i: usize) -> &[u8]
    requires s_value { walk s.now ≡ some (records s.now) }
    requires i_in_bounds { i < length (records s.now) }
    ensures { result.now ≡ part s.now i }
{
    let Extent { place, size } = extent(s, i);
    &s[place..place + size]
}
