// The key that patches and cancels are found by.
#![tactic(auto)]

pub mod patch;
