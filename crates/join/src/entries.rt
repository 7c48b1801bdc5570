// The entries of the joined record, laid over a slice (specs/Pieces.antt).
ghost use Rattle.std.specs.Prelude.{◌≡◌, ◌+◌, ◌*◌, ◌≤◌, length};
ghost use Rattle.words.specs.Laid.{over};
ghost use Rattle.composite.specs.Meeting.{kind_byte, level_byte};
ghost use Rattle.composite.specs.Joined.{joined_event};
ghost use Rattle.join.specs.Pieces.{placed, all_placed, entry_bytes, all_entries};

use crate::joint::Joint;
use crate::places::Placed;
use composite::obstacle::meeting;
use words::le;

// The kind and the level of an event of the joined part.
#[derive(Clone, Copy)]
struct Sort {
    kind: u8,
    level: u8,
}

impl Joint<'_> {
    // A shared event becomes what its two kinds make of it.
    fn sort_of(&self, place: Placed) -> Sort
        requires { place ≡ placed self.now.a.bytes.now self.now.b.bytes.now place.identifier }
        ensures kind_value { result.kind ≡ kind_byte (joined_event self.now.a.bytes.now self.now.b.bytes.now place.identifier) }
        ensures level_value { result.level ≡ level_byte (joined_event self.now.a.bytes.now self.now.b.bytes.now place.identifier) }
    {
        match (place.first, place.second) {
            (Some(i), Some(j)) => {
                let kind = meeting(self.a.event_kind(i), self.b.event_kind(j)).unwrap();
                Sort {
                    kind: kind as u8,
                    level: self.a.level(i),
                }
            }
            (Some(i), None) => Sort {
                kind: self.a.kind_byte(i),
                level: self.a.level(i),
            },
            (None, Some(j)) => Sort {
                kind: self.b.kind_byte(j),
                level: self.b.level(j),
            },
            (None, None) => Sort { kind: 0, level: 0 },
        }
    }

    fn put_entry(&self, out: &mut [u8], at: usize, place: Placed)
        requires is_placed { place ≡ placed self.now.a.bytes.now self.now.b.bytes.now place.identifier }
        requires has_room { at + 4 ≤ length out.old }
        ensures { out.new ≡ over out.old at (entry_bytes self.now.a.bytes.now self.now.b.bytes.now place.identifier) }
    {
        let event = self.sort_of(place);
        le::put::<2>(out, at, place.identifier as u64);
        out[at + 2] = event.kind;
        out[at + 3] = event.level;
    }

    pub(crate) fn put_entries(&self, out: &mut [u8], at: usize, places: &[Placed])
        requires are_placed { places.now ≡ all_placed self.now.a.bytes.now self.now.b.bytes.now }
        requires has_room { at + 4 * length places.now ≤ length out.old }
        ensures { out.new ≡ over out.old at (all_entries self.now.a.bytes.now self.now.b.bytes.now) }
    {
        for (i, &place) in places.iter().enumerate() {
            self.put_entry(out, at + 4 * i, place);
        }
    }
}
