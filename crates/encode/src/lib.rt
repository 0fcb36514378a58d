// Numbers written into slices of bytes.
#![tactic(auto)]

pub mod fields;
pub mod laws;
