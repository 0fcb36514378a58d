// What a sector of the log tells.
ghost use Rattle.std.specs.Prelude.{◌≡◌};
ghost use Rattle.record.specs.Record.{is_header, held_cycle, held_position, header_of, sound};

use crate::header::{FORMAT, MAGIC, RecordHeader, VERSION};
use codec::fields::{Number, bytes_at};
use label::geometry::Geometry;
use label::position::join;

// Whether a log sector is a header.
pub fn is_header(sector: &[u8; 512]) -> bool
    ensures { result ≡ is_header sector.now }
{
    u32::be_at(sector, 0) == MAGIC
}

// The cycle that a log sector holds: its first word, or the second in a header.
pub fn held_cycle(sector: &[u8; 512]) -> u32
    ensures { result ≡ held_cycle sector.now }
{
    if is_header(sector) {
        u32::be_at(sector, 4)
    } else {
        u32::be_at(sector, 0)
    }
}

// The position that log sector `index` holds.
pub fn held_position(geometry: Geometry, index: u32, sector: &[u8; 512]) -> u64
    ensures { result ≡ held_position geometry.label index sector.now }
{
    join(geometry, (held_cycle(sector), index))
}

impl From<&[u8; 512]> for RecordHeader {
    ghost from_gives = { λ sector header. header ≡ header_of sector.now };

    // The fields of a header.
    fn from(sector: &[u8; 512]) -> Self {
        RecordHeader {
            cycle: u32::be_at(sector, 4),
            version: u32::be_at(sector, 8),
            length: u32::be_at(sector, 12),
            own: (u32::be_at(sector, 16), u32::be_at(sector, 20)),
            tail: (u32::be_at(sector, 24), u32::be_at(sector, 28)),
            sum: u32::le_at(sector, 32),
            previous: u32::be_at(sector, 36),
            ops: u32::be_at(sector, 40),
            format: u32::be_at(sector, 300),
            uuid: bytes_at(sector, 304),
            most: u32::be_at(sector, 320),
        }
    }
}

// A header at `position` is one that this log can have: version, format, uuid and place are right, its cycle is not 0, and its
// data is some whole sectors, not more than a record may have.
pub fn sound(geometry: Geometry, header: &RecordHeader, position: u64) -> bool
    ensures { result ≡ sound geometry.label header.now position }
{
    let count = geometry.label.count as u64;
    header.version == VERSION
        && header.format == FORMAT
        && header.uuid == geometry.label.uuid
        && header.own.0 as u64 == position / count
        && header.own.1 as u64 == position % count
        && header.cycle != 0
        && header.length % 512 == 0
        && 512 <= header.length
        && header.length <= geometry.label.most
}
