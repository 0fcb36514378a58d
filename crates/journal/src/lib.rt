// The journal of a volume: the public calls. So far: label. What a refusal is stands in faults, and is known here under its old paths too.
#![tactic(auto)]

pub mod labels;
mod records;

pub use faults::{cause, fault, refusal};
