// The C interface, declared in include/hookup.h: exports, and nothing else that a host sees.
#![tactic(auto)]

ghost use Rattle.std.specs.Prelude.{◌≡◌, ◌≤◌, length};
ghost use Rattle.restrictive.specs.Verdict.{verdict};
ghost use Rattle.restrictive.specs.Answers.{failure_of, verdict_of};
ghost use Rattle.words.specs.Laid.{over, laid_unless};
ghost use Rattle.closure.specs.Closures as closures;
ghost use Rattle.explain.specs.Explanation as explanations;
ghost use Rattle.explain.specs.Explanation.{explained};
ghost use Rattle.composite.specs.Joined.{joined};
ghost use Rattle.composite.specs.Joining.{joining, buffer_after};
ghost use Rattle.composite.specs.Answers.{side_of, obstacle_of};
ghost use Rattle.inventory.specs.Inventory.{count_told, part_told, bytes, refusal};
ghost use Rattle.store.specs.Demand.{shelf_after, shelf_answers};
ghost use Rattle.batch.specs.Running as runs;
ghost use Rattle.batch.specs.Slots.{slots};
ghost use Rattle.hookup.specs.Numbers.{check_number, side_number, obstacle_number, join_number, refusal_number};

use batch::run::run;
use closure::answer::Unlisted;
use closure::call::list_closures;
use composite::answer::{Obstacle, Side, Unjoined};
use explain::answer::NoRoom;
use explain::call::explain;
use inventory::call::{tell_count, tell_part};
use join::call::join;
use restrictive::call::check;
use restrictive::{Failure, Verdict};

// The numbers of failures, sides and obstacles are the C interface's: a hundred for a break, a thousand for the second
// record. There are five rules.
fn failure_number(f: Failure) -> u32
    ensures value { result ≡ check_number (failure_of f) }
    ensures upper_bound { result ≤ 105 }
{
    match f {
        Failure::Refused(r) => r.number(),
        Failure::Breaks(found) => 100 + found.violation.rule.number() as u32,
    }
}

// The number of a verdict.
fn check_number(v: Verdict) -> u32
    ensures { result ≡ check_number (verdict_of v) }
{
    match v {
        Ok(_) => 0,
        Err(f) => failure_number(f),
    }
}

fn side_number(side: Side) -> u32
    ensures value { result ≡ side_number (side_of side) }
    ensures upper_bound { result ≤ 1000 }
{
    match side {
        Side::First => 0,
        Side::Second => 1000,
    }
}

fn obstacle_number(o: Obstacle) -> u32
    ensures { result ≡ obstacle_number (obstacle_of o) }
{
    match o {
        Obstacle::ObserversDiffer => 9,
        Obstacle::Clash(_) => 10,
        Obstacle::TooLarge => 11,
    }
}

// 0 for a pass, the refusal's number, or 100 plus the rule for a break.
#[unsafe(no_mangle)]
pub extern "C" fn hookup_check(bytes: &[u8]) -> u32
    ensures { result ≡ check_number (verdict bytes.now) }
{
    check_number(check(bytes))
}

// 0 for a joined record, the refusal's number, or 100 plus the rule for a break; 1,000 more where B's own record is refused or breaks.
#[unsafe(no_mangle)]
pub extern "C" fn hookup_join<'a>(a: &'a [u8], b: &'a [u8], out: &mut [u8]) -> u32
    ensures value { result ≡ join_number (joining a.now b.now (length out.old)) }
    ensures out_after { out.new ≡ buffer_after (joining a.now b.now (length out.old)) (joined a.now b.now) out.old }
{
    match join(a, b, out) {
        Ok(_size) => 0,
        Err(Unjoined::Unfit(side, f)) => side_number(side) + failure_number(f),
        Err(Unjoined::Stopped(o)) => obstacle_number(o),
        Err(Unjoined::NoRoom) => 15,
    }
}

// 0 where the closures of the record's states are written, or the refusal's number.
#[unsafe(no_mangle)]
pub extern "C" fn hookup_closure(bytes: &[u8], out: &mut [u8]) -> u32
    ensures value { result ≡ refusal_number (closures.refusal bytes.now (length out.old)) }
    ensures out_after { out.new ≡ laid_unless (closures.refusal bytes.now (length out.old)) (closures.pieces bytes.now) out.old }
{
    match list_closures(bytes, out) {
        Ok(_written) => 0,
        Err(Unlisted::Refused(r)) => r.number(),
        Err(Unlisted::NoRoom) => 15,
    }
}

// What hookup_check answers, with the verdict in numbers at the start of out; 15 where these have no room.
#[unsafe(no_mangle)]
pub extern "C" fn hookup_explain(bytes: &[u8], out: &mut [u8]) -> u32
    ensures value { result ≡ check_number (explained bytes.now (length out.old)) }
    ensures out_after { out.new ≡ explanations.buffer_after bytes.now out.old }
{
    match explain(bytes, out) {
        Ok(v) => check_number(v),
        Err(NoRoom) => 15,
    }
}

// 0 where all calls of the script were made on the shelf, with an answer to each at the start of answers; 99 or 15 where none was.
#[tactic(auto, unfolding(crate::specs::Numbers::refusal_number))]
#[unsafe(no_mangle)]
pub extern "C" fn hookup_run(script: &[u8], shelf: &mut [u8], answers: &mut [u8]) -> u32
    ensures value { result ≡ refusal_number (runs.refusal script.now (length answers.old)) }
    ensures shelf_after { shelf.new ≡ shelf_after (runs.made script.now (length answers.old)) shelf.old }
    ensures answers_after { answers.new ≡ over answers.old 0 (slots (shelf_answers (runs.made script.now (length answers.old)) shelf.old)) }
{
    match run(script, shelf, answers) {
        Ok(()) => 0,
        Err(why) => why.number(),
    }
}

// 0 where the number of the shelf's records is written, or the refusal's number.
#[tactic(auto, unfolding(crate::specs::Numbers::refusal_number))]
#[unsafe(no_mangle)]
pub extern "C" fn hookup_count(shelf: &[u8], out: &mut [u8]) -> u32
    ensures value { result ≡ refusal_number (refusal (count_told shelf.now) (length out.old)) }
    ensures out_after { out.new ≡ laid_unless (refusal (count_told shelf.now) (length out.old)) (bytes (count_told shelf.now)) out.old }
{
    match tell_count(shelf, out) {
        Ok(()) => 0,
        Err(untold) => untold.number(),
    }
}

// 0 where the place and the length of record i are written, or the refusal's number.
#[tactic(auto, unfolding(crate::specs::Numbers::refusal_number))]
#[unsafe(no_mangle)]
pub extern "C" fn hookup_part(shelf: &[u8], i: usize, out: &mut [u8]) -> u32
    ensures value { result ≡ refusal_number (refusal (part_told shelf.now i) (length out.old)) }
    ensures out_after { out.new ≡ laid_unless (refusal (part_told shelf.now i) (length out.old)) (bytes (part_told shelf.now i)) out.old }
{
    match tell_part(shelf, i, out) {
        Ok(()) => 0,
        Err(untold) => untold.number(),
    }
}
