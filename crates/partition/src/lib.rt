// Partitions of the states, by columns: a column has the class of each state, a byte each.
#![tactic(auto)]

pub mod classes;
pub mod limit;

pub use classes::{Column, Columns};
