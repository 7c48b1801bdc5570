// The readings of machine words: as sets of states, as sets of pairs of states, and as little-endian numbers in byte slices.
#![tactic(auto)]

pub mod copy;
pub mod le;
pub mod pair;
pub mod set;
