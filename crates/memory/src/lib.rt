// A device in memory.
#![tactic(auto)]

pub mod cell;
pub mod ram;
