// Entries are found by the keys that they have.
#![tactic(auto)]

pub mod entry;
pub mod key;
