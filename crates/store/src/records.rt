// The records at the start of some bytes, one behind the other (specs/Leading.antt).
ghost use Rattle.std.specs.Prelude.{◌≡◌, ◌≤◌, length, IfSome};
ghost use Rattle.store.specs.Leading.{ends_there, size_there};
ghost use Rattle.store.specs.Walk.{front};

use part::Part;
use words::le;

// The end record stands at the start: kind 0 with L = 0.
pub fn is_end(s: &[u8]) -> bool
    ensures { result ≡ ends_there (front s.now) }
{
    s.len() >= Part::HEADER && le::number::<2>(s, 4) == 0 && le::number::<4>(s, 0) == 0
}

// The size of the record at the start, unless it is the end record or runs past the bytes.
fn record_size(s: &[u8]) -> Option<usize>
    ensures value { result ≡ size_there (front s.now) }
    ensures within { IfSome result (λ n. n ≤ length s.now) }
{
    if s.len() < Part::HEADER || is_end(s) {
        return None;
    }
    let size = Part::HEADER + le::number::<4>(s, 0) as usize;
    if s.len() < size {
        return None;
    }
    Some(size)
}

// What is left of the bytes behind the records that it has given.
#[derive(Drop)]
pub struct Records<'a> {
    pub rest: &'a [u8],
}

impl<'a> Records<'a> {
    pub fn of(s: &'a [u8]) -> Records<'a>
        ensures { result.rest.now ≡ s.now }
    {
        Records { rest: s }
    }
}

impl<'a> Iterator for Records<'a> {
    ghost use Rattle.std.specs.Iterator.{YieldsFirstRef, item_count};
    ghost use Rattle.store.specs.Leading.{leading};

    type Item = &'a [u8];

    ghost next_gives = { YieldsFirstRef (λ r. leading r.rest.now) };

    ghost remaining = { item_count (λ r. leading r.rest.now) };

    #[tactic(auto, using(crate::proofs::Leading::leads))]
    fn next(&mut self) -> Option<&'a [u8]> {
        let size = record_size(self.rest)?;
        let (record, rest) = self.rest.split_at(size);
        self.rest = rest;
        Some(record)
    }
}
