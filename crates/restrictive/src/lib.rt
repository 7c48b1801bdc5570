// Check: the five rules on the relations of a record, the first violation, and the verdict.
#![tactic(auto)]

pub mod answer;
pub mod call;
mod naming;
mod rules;
mod search;

pub use answer::{Break, Failure, Pass, Verdict, Violation};
