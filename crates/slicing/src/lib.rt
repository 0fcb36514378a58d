// A slice of any device, owned or lent: its extent, its size, and reading and writing in it.
#![tactic(auto)]

pub mod extent;
pub mod lent_part;
pub mod part;
