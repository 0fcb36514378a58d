// The header of a record, as a sector of its own.

// The first word of every header.
pub const MAGIC: u32 = 0xFEED_BABE;

// The version of every header.
pub const VERSION: u32 = 2;

// The format of the log operations of every record.
pub const FORMAT: u32 = 1;

// The fields of a record header but for its magic number, its saved words and the zeros at its end. A pair is a position as
// (cycle, log sector).
#[derive(Clone, Copy, PartialEq, Eq, Debug)]
pub struct RecordHeader {
    pub cycle: u32,
    pub version: u32,
    pub length: u32,
    pub own: (u32, u32),
    pub tail: (u32, u32),
    pub sum: u32,
    pub previous: u32,
    pub ops: u32,
    pub format: u32,
    pub uuid: [u8; 16],
    pub most: u32,
}
