// The shelf: a record store.
#![tactic(auto)]

pub mod answer;
mod append;
pub mod call;
pub mod found;
mod joined;
pub mod reading;
pub mod record;
mod records;
pub mod walk;
