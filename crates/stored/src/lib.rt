// A record as it is stored: its header as a sector, saved words, its checksum. Everything here is a function of
// bytes and numbers; no device is touched.
#![tactic(auto)]

pub mod heading;
pub mod saved;
pub mod short;
pub mod sum;
