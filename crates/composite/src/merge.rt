// The merged entries of two records (specs/Merge.antt, specs/Joined.antt).
ghost use Rattle.std.specs.Prelude.{◌≡◌, ◌+◌, ◌<◌, ◌≤◌};
ghost use Rattle.part.specs.Record.{events};
ghost use Rattle.composite.specs.Joined.{merged};
ghost use Rattle.composite.specs.Walk.{entry, comes_first, next_entry, past};

use arrayvec::ArrayVec;
use part::Record;
use words::le;

#[tactic(auto, unfolding(crate::specs::Walk::comes_first))]
fn comes_first(a: Record, b: Record, i: usize, j: usize) -> bool
    ensures { result ≡ comes_first a.entry.bytes.now b.entry.bytes.now i j }
{
    i < a.events() && (b.events() <= j || a.identifier(i) <= b.identifier(j))
}

// The four bytes of the entry at place i.
#[tactic(auto, unfolding(crate::specs::Walk::entry))]
fn entry<'a>(b: Record<'a>, i: usize) -> &'a [u8]
    requires { i < events b.bytes.now }
    ensures { result.now ≡ entry b.entry.bytes.now i }
{
    let at = b.entry(i);
    &b.bytes()[at..at + 4]
}

// The next entry, as a part of the record that it comes from.
fn next_entry<'a>(a: Record<'a>, b: Record<'a>, i: usize, j: usize) -> &'a [u8]
    requires places_bound { (i ≤ events a.bytes.now) × (j ≤ events b.bytes.now) }
    requires j_bound { i + j < events a.bytes.now + events b.bytes.now }
    ensures { result.now ≡ next_entry a.entry.bytes.now b.entry.bytes.now i j }
{
    if comes_first(a, b, i, j) {
        entry(a, i)
    } else {
        entry(b, j)
    }
}

#[tactic(auto, unfolding(crate::specs::Walk::past))]
fn past(b: Record, i: usize, e: usize) -> usize
    ensures { result ≡ past b.entry.bytes.now i e }
{
    if i < b.events() && b.identifier(i) == e {
        i + 1
    } else {
        i
    }
}

// The identifiers of the merged entries, one at a time: both records go past the next identifier.
pub fn merge<'a>(a: Record<'a>, b: Record<'a>) -> ArrayVec<usize, 64>
    ensures { result.items ≡ merged a.entry.bytes.now b.entry.bytes.now }
{
    let total = a.events() + b.events();
    let mut identifiers = ArrayVec::new();
    let mut i = 0;
    let mut j = 0;
    // Both places move by what is found, so that the loop counts nothing.
    while i + j < total {
        let entry = next_entry(a, b, i, j);
        let e = le::number::<2>(entry, 0) as usize;
        identifiers.push(e);
        i = past(a, i, e);
        j = past(b, j, e);
    }
    identifiers
}
