// The relations of a record's machine as sets: the events that each rule speaks of, the silent closure.
#![tactic(auto)]

pub mod event;
pub mod silent;
