// The form of a record by its kind; where its parts begin, and how long it is, by its counts (specs/Format.antt).
ghost use Rattle.std.specs.Prelude.{ℕ, ◌≡◌, ◌<◌, cond};
ghost use Rattle.part.specs.Format.{one_observer, several_observers, limited_part, form};
ghost use Rattle.part.specs.Format.{column_at, entries_at, rows_at, body_size, record_size};
ghost use Rattle.part.specs.Frame.{Few};
ghost use Rattle.part.specs.Kinds.{kind_with};

use crate::field::Part;
use crate::format::{Counts, Form, Kind};

// x where the test holds, and otherwise y. A form is put together of such values, not by branches over the kind: with
// branches, loops that read fields ask for the kind at each field, and calls took 1.07 for 1.03 times as long as before
// there were limited records (docs/LANDINGS.md).
fn choose(test: bool, x: usize, y: usize) -> usize
    ensures { result ≡ cond test x y }
{
    if test { x } else { y }
}

impl Form {
    // The form of a record with this first byte, by two tests of its kind. Readers take it by the number of the kind: by
    // an Option of a Kind screening a part of 8 states took 1.5 times as long.
    pub(crate) fn choice(several: bool, limited: bool, lead: usize) -> Form
        ensures { result ≡ cond several (several_observers lead) (cond limited limited_part one_observer) }
    {
        Form {
            observers: choose(several, lead, 1),
            levels: choose(several, Part::LISTS, Part::HEADER),
            listed: choose(several, lead, 0),
            columns: choose(several, lead, choose(limited, 2, 1)),
            finer: choose(several, 0, choose(limited, 1, 0)),
        }
    }

    // The form of a record of this kind, with this first byte. One of no known kind has the form of a single one.
    pub fn of(kind: Option<Kind>, lead: usize) -> Form
        ensures { (k : ℕ) → kind ≡ kind_with k → result ≡ form k lead }
    {
        Form::choice(
            kind == Some(Kind::Several),
            kind == Some(Kind::Limited),
            lead,
        )
    }
}

// `Few` is asked by each method and is no ghost field: the format names the counts of any bytes (`counts`,
// specs/Record.antt), also of those that are none of a record.
impl Counts {
    // Column j, behind the list and the columns before it. A column has a byte for each state.
    pub fn column_at(self, j: usize) -> usize
        requires few { Few self }
        requires j_lt_columns { j < self.form.columns }
        ensures { result ≡ column_at self j }
    {
        Part::LISTS + self.form.listed + j * self.states
    }

    // The entries stand behind the columns.
    pub fn entries_at(self) -> usize
        requires { Few self }
        ensures { result ≡ entries_at self }
    {
        Part::LISTS + self.form.listed + self.form.columns * self.states
    }

    // The rows stand behind the entries.
    pub fn rows_at(self) -> usize
        requires { Few self }
        ensures { result ≡ rows_at self }
    {
        self.entries_at() + Part::ENTRY * self.events
    }

    pub fn body_size(self) -> usize
        requires { Few self }
        ensures { result ≡ body_size self }
    {
        let columns = self.form.columns * self.states;
        let rows = self.events * self.states;
        Part::NUMBERS + self.form.listed + columns + Part::ENTRY * self.events + Part::ROW * rows
    }

    pub fn record_size(self) -> usize
        requires { Few self }
        ensures { result ≡ record_size self }
    {
        Part::HEADER + self.body_size()
    }
}
