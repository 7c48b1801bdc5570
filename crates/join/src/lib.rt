// Join: the record writer, and the call.
#![tactic(auto)]

pub mod call;
mod entries;
pub mod joint;
mod places;
mod rows;
mod writer;
