// What every call of the journal means, in definitions; and what is proved of them, in the contracts of two functions.
#![tactic(auto)]

pub mod cases;
pub mod laws;
