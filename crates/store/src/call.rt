// Clear, Load and Hookup (document 01, "The shelf").
ghost use Rattle.std.specs.Prelude.{◌≡◌};
ghost use Rattle.store.specs.Answers.{answer_of};
ghost use Rattle.store.specs.Calls.{clear, load, passes, hookup};

use crate::answer::Refusal;
use crate::append::{append, put_end};
use crate::joined::append_joined;
use crate::record::record;
use crate::walk::walk;
use part::Part;
use restrictive::call::check;

// The end record at the start.
#[tactic(auto, using(crate::proofs::Appends::clear_short), unfolding(crate::specs::Answers::answer_of))]
pub fn clear(s: &mut [u8]) -> Result<usize, Refusal>
    ensures result_value { answer_of result ≡ (clear s.old).answer }
    ensures s_after { s.new ≡ (clear s.old).shelf }
{
    if s.len() < Part::HEADER {
        return Err(Refusal::NoEnd);
    }
    put_end(s, 0);
    Ok(0)
}

// The record r behind the records that are there, if it passes Check.
pub fn load(s: &mut [u8], r: &[u8]) -> Result<usize, Refusal>
    ensures result_value { answer_of result ≡ (load s.old r.now).answer }
    ensures s_after { s.new ≡ (load s.old r.now).shelf }
{
    let end = walk(s)?;
    check(r)?;
    append(s, end, r)
}

// r passes Check.
fn passes(r: &[u8]) -> bool
    ensures { result ≡ passes r.now }
{
    check(r).is_ok()
}

// The joined record of records i and j, behind the records that are there. They are read where they stand, while only
// what is behind them is written.
pub fn hookup(s: &mut [u8], i: usize, j: usize) -> Result<usize, Refusal>
    ensures result_value { answer_of result ≡ (hookup s.old i j).answer }
    ensures s_after { s.new ≡ (hookup s.old i j).shelf }
{
    let end = walk(s)?;
    if end.records <= i || end.records <= j {
        return Err(Refusal::NoPart);
    }
    let (front, back) = s.split_at_mut(end.place);
    let parts = &front[..];
    let first = record(parts, i);
    if !passes(first) {
        return Err(Refusal::Unfit);
    }
    let second = record(parts, j);
    if !passes(second) {
        Err(Refusal::Unfit)
    } else {
        append_joined(back, end.records, first, second)
    }
}
