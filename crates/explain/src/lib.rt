// The verdict on a part in numbers, for a host program.
#![tactic(auto)]

pub mod answer;
pub mod call;
