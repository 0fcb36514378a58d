// Items of a transaction: their regions, what they ask, kinds of items, and the sectors that they may touch.
#![tactic(auto)]

pub mod cases;
pub mod class;
pub mod item;
pub mod kind;
pub mod place;
pub mod range;
pub mod region;
