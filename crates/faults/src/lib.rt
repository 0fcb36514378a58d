// Why the journal refuses: the causes, and what a refusal tells.
#![tactic(auto)]

pub mod cause;
pub mod fault;
pub mod refusal;
