// The kind of buffers: patches of chunks of 128 bytes that a map tells, and cancels.
#![tactic(auto)]

pub mod cases;
mod cursor;
pub mod kind;
mod laying;
mod map;
mod runs;
mod shape;
