// Banks: the kinds of items that a journal knows, by their type numbers.
#![tactic(auto)]

pub mod bank;
pub mod built;
pub mod one;
pub mod pair;
