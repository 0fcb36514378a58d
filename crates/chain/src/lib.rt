// The records of a log, read one at a time into a buffer of the caller's.
#![tactic(auto)]

mod due;
pub mod records;
mod rows;
