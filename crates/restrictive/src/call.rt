// Check (document 01, "The shelf"; document 02, f, k and l).
ghost use Rattle.std.specs.Prelude.{◌≡◌, ◌<◌};
ghost use Rattle.part.specs.Record.{observers, observer_of, column, fine_column};
ghost use Rattle.restrictive.specs.Verdict.{limit};
ghost use Rattle.restrictive.specs.Answers.{Reports};
ghost use Rattle.restrictive.specs.Found.{FindingFor, FindingIn};

use crate::answer::{Break, Pass, Verdict};
use crate::search::Search;
use part::Kind;
use partition::Columns;
use screening::{Screened, screen};

// The columns of an accepted record for observer o.
fn columns<'a>(accepted: Screened<'a>, o: usize) -> Columns<'a>
    requires { o < observers accepted.record.bytes.now }
    ensures column { result.column.classes.now ≡ column accepted.entry.record.bytes.now o }
    ensures fine { result.fine.classes.now ≡ fine_column accepted.entry.record.bytes.now o }
{
    let b = accepted.record;
    Columns::of(b.class_column(o), b.fine_column(o))
}

// The first violation of an accepted record for observer o.
fn for_observer(accepted: Screened, o: usize) -> Result<usize, Break>
    requires { o < observers accepted.record.bytes.now }
    ensures { FindingFor accepted.entry.record.bytes.now (observer_of accepted.entry.record.bytes.now o) result }
{
    let b = accepted.record;
    let search = Search {
        b,
        observer: b.observer(o),
        columns: columns(accepted, o),
    };
    search.violation_for()
}

// The first violation of an accepted record, observer by observer. Where there is none, the states taken up are those of the first. The
// call stands once: with another for the first observer it is not compiled into its caller, and Check of one state for four observers took
// more than twice as long.
fn by_observers(accepted: Screened) -> Result<usize, Break>
    ensures { FindingIn accepted.entry.record.bytes.now result }
{
    let mut taken = 0;
    for o in 0..accepted.record.observers() {
        let states = for_observer(accepted, o)?;
        if o == 0 {
            taken = states;
        }
    }
    Ok(taken)
}

// The limit of an accepted record. Only a limited part has more than one fine class in a class.
fn limit_of(accepted: Screened) -> usize
    ensures { result ≡ limit accepted.entry.record.bytes.now }
{
    if accepted.record.kind() != Some(Kind::Limited) {
        return 1;
    }
    columns(accepted, 0).limit()
}

// The verdict on a record: the first rejection, else the first violation, with how many states were taken up for it, else a pass, with that
// number and the limit.
pub fn check(bytes: &[u8]) -> Verdict
    ensures { Reports bytes.now result }
{
    let accepted = screen(bytes)?;
    let taken = by_observers(accepted)?;
    Ok(Pass {
        taken,
        limit: limit_of(accepted),
    })
}
