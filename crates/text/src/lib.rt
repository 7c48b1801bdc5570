// Text: decimal and hexadecimal numbers laid over bytes.
#![tactic(auto)]

pub mod hex;
pub mod line;
