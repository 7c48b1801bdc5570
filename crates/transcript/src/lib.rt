// The lines of a replay, and its operations one by one.
#![tactic(auto)]

pub mod answer;
pub mod contents;
pub mod told;
pub mod turn;
