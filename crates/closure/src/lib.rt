// The closures of a part as bytes, for debuggers.
#![tactic(auto)]

pub mod answer;
pub mod call;
mod writer;
