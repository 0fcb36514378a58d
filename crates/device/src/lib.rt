// Devices of 512-byte sectors: what one is, lists of actions and what it is to run one.
#![tactic(auto)]

pub mod actions;
pub mod fault;
pub mod interface;
pub mod laws;
pub mod lent;
