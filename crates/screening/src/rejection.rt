// The rejections of a record, in order (specs/Rejections.antt): one function for each condition, and two cascades.
ghost use Rattle.std.specs.Prelude.{◌≡◌, ◌<◌, false, IfOk};
ghost use Rattle.part.specs.Record.{observers, observer, events, identifier};
ghost use Rattle.screening.specs.Rejections.{too_short, wrong_length, wrong_kind, out_of_range, wrong_size};
ghost use Rattle.screening.specs.Rejections.{falls, mislisted, unnumbered, misnumbered, misrefined, misordered_at, misordered};
ghost use Rattle.screening.specs.Rejections.{mislabelled_part, row_strays, stray_bit};
ghost use Rattle.screening.specs.Rejections.{frame_conditions, content_conditions, first_of, rejection};
ghost use Rattle.screening.specs.Answers.{number_of, rejection_of};

use crate::answer::Rejection;
use crate::screened::Screened;
use level::Level;
use part::{EventKind, Kind, Part, Record, classes_with};
use partition::Columns;
use words::set;

impl Rejection {
    // The number that the documents give it.
    pub fn number(self) -> u32
        ensures value { result ≡ number_of self }
        ensures upper_bound { result < 100 }
    {
        match self {
            Rejection::TooShort => 1,
            Rejection::WrongLength => 2,
            Rejection::WrongKind => 3,
            Rejection::OutOfRange => 4,
            Rejection::WrongSize => 5,
            Rejection::Mislisted => 20,
            Rejection::Misnumbered => 6,
            Rejection::Misrefined => 21,
            Rejection::Misordered => 7,
            Rejection::Mislabelled => 16,
            Rejection::StrayBit => 8,
        }
    }
}

// Each test of a record's frame asks that those before it failed, in the order in which `screen_frame` runs them: a type for
// what each leaves would be made once and taken once.
#[tactic(auto, unfolding(crate::specs::Rejections::too_short))]
fn too_short(b: &[u8]) -> bool
    ensures { result ≡ too_short b.now }
{
    b.len() < Part::HEADER
}

#[tactic(auto, using(crate::proofs::Rejections::long), unfolding(crate::specs::Rejections::wrong_length))]
fn wrong_length(b: &[u8]) -> bool
    requires { too_short b.now ≡ false }
    ensures { result ≡ wrong_length b.now }
{
    Part::body_length(b) != b.len() - Part::HEADER
}

fn wrong_kind(b: &[u8]) -> bool
    requires { too_short b.now ≡ false }
    ensures { result ≡ wrong_kind b.now }
{
    Kind::try_from(Part::kind(b)).is_err()
}

// The counts are read only where there are bytes for them.
fn out_of_range(b: &[u8]) -> bool
    requires long_enough { too_short b.now ≡ false }
    requires length_right { wrong_length b.now ≡ false }
    ensures { result ≡ out_of_range b.now }
{
    if b.len() < Part::LISTS {
        return true;
    }
    let n = Part::states(b);
    n < 1 || Part::STATES < n || n <= Part::start(b) || Part::EVENTS < Part::events(b)
}

#[tactic(auto, using(crate::proofs::Rejections::sized), unfolding(crate::specs::Rejections::wrong_size))]
fn wrong_size(b: &[u8]) -> bool
    requires long_enough { too_short b.now ≡ false }
    requires length_right { wrong_length b.now ≡ false }
    requires in_range { out_of_range b.now ≡ false }
    ensures { result ≡ wrong_size b.now }
{
    Part::body_length(b) != Part::counts(b).body_size()
}

// The level of observer o is not above the one before it.
fn observer_falls(b: Record, o: usize) -> bool
    requires { o < observers b.bytes.now }
    ensures { result ≡ falls (observer b.entry.bytes.now) o }
{
    o > 0 && b.observer(o) <= b.observer(o - 1)
}

// The classes of a column are not numbered by first appearance.
fn unnumbered(column: &[u8]) -> bool
    ensures { result ≡ unnumbered column.now }
{
    let mut count = 0;
    for &c in column {
        let c = usize::from(c);
        if count < c {
            return true;
        }
        count = classes_with(count, c);
    }
    false
}

// The identifier at place i is not above the one before it.
fn identifier_falls(b: Record, i: usize) -> bool
    requires { i < events b.bytes.now }
    ensures { result ≡ falls (identifier b.entry.bytes.now) i }
{
    i > 0 && b.identifier(i) <= b.identifier(i - 1)
}

// The event at place i is not behind the one before it, or its kind is unknown. The byte is compared, since reading it as a
// kind never fails.
fn misordered_at(b: Record, i: usize) -> bool
    requires { i < events b.bytes.now }
    ensures { result ≡ misordered_at b.entry.bytes.now i }
{
    identifier_falls(b, i) || b.kind_byte(i) > EventKind::Internal as u8
}

// Some row of the event has a bit at n or above: the union of its rows has one.
#[tactic(auto, using(crate::proofs::Strays::uniting))]
fn row_strays(b: Record, i: usize) -> bool
    requires { i < events b.bytes.now }
    ensures { result ≡ row_strays b.entry.bytes.now i }
{
    let mut found = 0;
    for s in 0..b.states() {
        found = set::union(found, b.row(i, s));
    }
    set::exceeds(b.states(), found)
}

// A record is read of the bytes only where the tests above passed, so the list is compared behind two returns.
fn mislisted(b: &[u8]) -> bool
    requires long_enough { too_short b.now ≡ false }
    requires length_right { wrong_length b.now ≡ false }
    requires in_range { out_of_range b.now ≡ false }
    requires size_right { wrong_size b.now ≡ false }
    ensures { result ≡ mislisted b.now }
{
    if Kind::try_from(Part::kind(b)).ok() != Some(Kind::Several) {
        return false;
    }
    let count = Part::form(b).observers;
    if count < Part::LEAST_LISTED || Part::OBSERVERS < count {
        return true;
    }
    let b = Record::of(b);
    (0..count).any(|o| observer_falls(b, o))
}

fn misnumbered(b: Record) -> bool
    ensures { result ≡ misnumbered b.entry.bytes.now }
{
    (0..b.observers()).any(|o| unnumbered(b.class_column(o)))
}

// A fine column that is numbered by first appearance, and lies inside the classes, is asked of a limited part alone.
fn misrefined(b: Record) -> bool
    requires { misnumbered b.bytes.now ≡ false }
    ensures { result ≡ misrefined b.entry.bytes.now }
{
    if b.kind() != Some(Kind::Limited) {
        return false;
    }
    let fine = b.fine_column(0);
    unnumbered(fine) || Columns::of(b.class_column(0), fine).crosses()
}

fn misordered(b: Record) -> bool
    ensures { result ≡ misordered b.entry.bytes.now }
{
    (0..b.events()).any(|i| misordered_at(b, i))
}

fn mislabelled(b: Record) -> bool
    ensures { result ≡ mislabelled_part b.entry.bytes.now }
{
    (0..b.observers()).any(|o| Level::is_mislabelled(b.observer(o)))
        || (0..b.events()).any(|i| Level::is_mislabelled(b.level(i)))
}

// A row has no bit above 63.
fn stray_bit(b: Record) -> bool
    ensures { result ≡ stray_bit b.entry.bytes.now }
{
    b.states() < Part::STATES && (0..b.events()).any(|i| row_strays(b, i))
}

// The rejections 1 to 5 and 20: header, counts, size and the list of observers.
fn screen_frame(b: &[u8]) -> Result<Record<'_>, Rejection>
    ensures rejection { rejection_of result ≡ first_of frame_conditions b.now }
    ensures bytes { IfOk result (λ r. r.bytes.now ≡ b.now) }
{
    if too_short(b) {
        return Err(Rejection::TooShort);
    }
    if wrong_length(b) {
        return Err(Rejection::WrongLength);
    }
    if wrong_kind(b) {
        return Err(Rejection::WrongKind);
    }
    if out_of_range(b) {
        return Err(Rejection::OutOfRange);
    }
    if wrong_size(b) {
        return Err(Rejection::WrongSize);
    }
    if mislisted(b) {
        return Err(Rejection::Mislisted);
    }
    Ok(Record::of(b))
}

// The rejections behind these: classes, entries, levels and rows.
fn screen_content(b: Record) -> Result<(), Rejection>
    ensures { rejection_of result ≡ first_of content_conditions b.entry.bytes.now }
{
    if misnumbered(b) {
        return Err(Rejection::Misnumbered);
    }
    if misrefined(b) {
        return Err(Rejection::Misrefined);
    }
    if misordered(b) {
        return Err(Rejection::Misordered);
    }
    if mislabelled(b) {
        return Err(Rejection::Mislabelled);
    }
    if stray_bit(b) {
        return Err(Rejection::StrayBit);
    }
    Ok(())
}

// The record that the bytes are, or the first rejection that applies to them.
pub fn screen(bytes: &[u8]) -> Result<Screened<'_>, Rejection>
    ensures rejection { rejection_of result ≡ rejection bytes.now }
    ensures bytes { IfOk result (λ s. s.record.bytes.now ≡ bytes.now) }
{
    let record = screen_frame(bytes)?;
    screen_content(record)?;
    Ok(Screened::of(record))
}
