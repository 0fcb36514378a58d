// Numbers read from slices of bytes; what numbers in bytes are, read and written, and their laws.
#![tactic(auto)]

pub mod fields;
