// The label and the log of a volume, read on any device: what is found in it.
#![tactic(auto)]

pub mod cause;
pub mod fault;
pub mod found;
pub mod headers;
pub mod labels;
pub mod log;
mod scanned;
pub mod sectors;
