// The label of a volume and the positions of its log, as functions of bytes and numbers.
#![tactic(auto)]

pub mod geometry;
pub mod label;
pub mod labelling;
pub mod laws;
pub mod limits;
pub mod position;
