// The obstacles 9, 10 and 11 between two passing parts, in order (specs/Joining.antt).
ghost use Rattle.std.specs.Prelude.{◌≡◌, ◌<◌, length};
ghost use Rattle.std.proofs.Math.Option.{some};
ghost use Rattle.part.specs.Record.{events, identifier};
ghost use Rattle.part.specs.Events.{place, event_of};
ghost use Rattle.part.specs.Kinds.{machine_kind};
ghost use Rattle.composite.specs.Joined.{merged};
ghost use Rattle.composite.specs.Meeting.{clashes};
ghost use Rattle.composite.specs.Joining.{observers_differ, first_clash, too_large, obstacle};
ghost use Rattle.composite.specs.Walk.{fit_of, meeting};

use crate::answer::Obstacle;
use part::{EventKind, Part, Record};
use screening::Screened;

const INTERNAL: Option<EventKind> = Some(EventKind::Internal);

// What a shared event becomes, by its kinds in the two parts; nothing where they clash.
const MEETING: [[Option<EventKind>; 3]; 3] = [
    [None, INTERNAL, None],
    [INTERNAL, None, None],
    [None, None, None],
];

#[tactic(auto, unfolding(crate::specs::Walk::meeting, crate::specs::Meeting::meets))]
pub fn meeting(i: EventKind, j: EventKind) -> Option<EventKind>
    ensures { result ≡ meeting (machine_kind i) (machine_kind j) }
{
    MEETING[i as usize][j as usize]
}

// The event at place i of a, which stands at place j of b, clashes.
fn clash_at(a: Screened, b: Screened, i: usize, j: usize) -> bool
    requires i_bound { i < events a.record.bytes.now }
    requires j_bound { j < events b.record.bytes.now }
    requires j_value { place b.record.bytes.now (identifier a.record.bytes.now i) ≡ some j }
    ensures { result
        ≡ clashes (event_of a.entry.record.bytes.now (identifier a.entry.record.bytes.now i))
        (event_of b.entry.record.bytes.now (identifier a.entry.record.bytes.now i)) }
{
    let meets = meeting(a.record.event_kind(i), b.record.event_kind(j)).is_some();
    !(meets && a.record.level(i) == b.record.level(j))
}

fn first_clash(a: Screened, b: Screened) -> Result<(), Obstacle>
    ensures { fit_of result ≡ first_clash a.entry.record.bytes.now b.entry.record.bytes.now }
{
    let mut near = 0;
    for i in 0..a.record.events() {
        let e = a.record.identifier(i);
        if let Some(j) = b.record.place_near(near, e) {
            if clash_at(a, b, i, j) {
                return Err(Obstacle::Clash(e));
            }
            near = j + 1;
        }
    }
    Ok(())
}

#[tactic(auto, unfolding(crate::specs::Joining::too_large))]
fn too_large(a: Record, b: Record, count: usize) -> bool
    requires { count ≡ length (merged a.bytes.now b.bytes.now) }
    ensures { result ≡ too_large a.entry.bytes.now b.entry.bytes.now }
{
    Part::STATES < a.states() * b.states() || Part::EVENTS < count
}

// The lists of observers differ.
fn observers_differ(a: Record, b: Record) -> bool
    ensures { result ≡ observers_differ a.entry.bytes.now b.entry.bytes.now }
{
    let count = a.observers();
    count != b.observers() || (0..count).any(|o| a.observer(o) != b.observer(o))
}

// count is the number of their merged entries.
pub fn obstacle(a: Screened, b: Screened, count: usize) -> Result<(), Obstacle>
    requires { count ≡ length (merged a.record.bytes.now b.record.bytes.now) }
    ensures { fit_of result ≡ obstacle a.entry.record.bytes.now b.entry.record.bytes.now }
{
    if observers_differ(a.record, b.record) {
        return Err(Obstacle::ObserversDiffer);
    }
    first_clash(a, b)?;
    if too_large(a.record, b.record, count) {
        return Err(Obstacle::TooLarge);
    }
    Ok(())
}
