// Which records are accepted: the rejections (document 01, "Refusals out of the input"), and the machine of an accepted record.
#![tactic(auto)]

pub mod answer;
mod rejection;
mod screened;

pub use answer::Rejection;
pub use rejection::screen;
pub use screened::Screened;
