// The hookup of two parts: the merged entries of their records, and the obstacles to a joined record.
#![tactic(auto)]

pub mod answer;
pub mod merge;
pub mod obstacle;
