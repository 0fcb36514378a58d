// Records of a log: what they are, and what their headers tell. Everything here is a function of
// bytes and numbers; no device is touched.
#![tactic(auto)]

pub mod header;
pub mod heading;
pub mod laws;
