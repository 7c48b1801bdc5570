// The part record (document 01, "The part record"): its limits, its format by kind, and its fields.
#![tactic(auto)]

mod field;
pub mod format;
mod framed;
mod place;

pub use field::{Part, classes_with};
pub use format::{Counts, EventKind, Form, Kind, UnknownKind};
pub use framed::Record;
