// A record with one data sector.
ghost use Rattle.std.specs.Prelude.{◌≡◌};
ghost use Rattle.record.specs.Record.{short_record};

use crate::heading::{header_at, sealed};
use crate::saved::pack;
use label::geometry::Geometry;

// Its two sectors as they are stored, the header first, with its checksum: its own place and that of its tail as pairs (cycle, log
// sector), the log sector of the record before, the number of ops and the data.
pub fn short_record(
    geometry: Geometry,
    own: (u32, u32),
    tail: (u32, u32),
    previous: u32,
    ops: u32,
    bytes: [u8; 512],
) -> [[u8; 512]; 2]
    ensures { result ≡ short_record geometry.label own tail previous ops bytes }
{
    let mut stored = bytes;
    let saved = pack(geometry, own, &mut stored);
    let header = header_at(geometry.label, own, tail, previous, ops, 1);
    [sealed(&header, &saved, &stored), stored]
}
