// Count and Part in numbers, for a host program.
#![tactic(auto)]

pub mod answer;
pub mod call;
