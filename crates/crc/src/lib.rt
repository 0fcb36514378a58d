// CRC-32C of bytes, eight at a time.
#![tactic(auto)]

pub mod laws;
pub mod running;
pub mod sum;
mod table;
