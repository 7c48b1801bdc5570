// A whole list of calls on a shelf, run at once; and one call of a script.
#![tactic(auto)]

pub mod answer;
mod listing;
pub mod perform;
pub mod run;
mod slot;
