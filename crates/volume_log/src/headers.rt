// What a record's header tells at its position.
ghost use Rattle.std.specs.Prelude.{◌≡◌, ◌^◌, ◌<◌, min, nat_le};
ghost use Rattle.volume_log.specs.Faults.{outcome};
ghost use Rattle.volume_log.specs.Seeking.{sound_header, look_at};
ghost use Rattle.record.specs.Record.{end_of};

use crate::cause::LogFault;
use label::geometry::Geometry;
use record::header::RecordHeader;
use record::heading::{is_header, sound};

// The position after the record whose header stands at `position`; the greatest number where it is too great for one.
pub fn end_of(header: &RecordHeader, position: u64) -> u64
    ensures value { result ≡ min (end_of header.now position) u64.MAX }
    ensures exact { position < 2 ^ 63 → result ≡ end_of header.now position }
{
    position.saturating_add(1 + header.length as u64 / 512)
}

// Whether the record whose header stands at `position` ends by `end`.
pub fn ends_by(header: &RecordHeader, position: u64, end: u64) -> bool
    ensures { result ≡ nat_le (end_of header.now position) end }
{
    position < end && (header.length as u64 / 512) < end - position
}

// The header on the sector of a position; none where the sector is no header, refused where the header is not sound there.
// Inlined, as `look_at` is: of most sectors the first word is all that matters, and the other bytes are then not copied.
#[inline(always)]
pub fn sound_header(
    geometry: Geometry,
    position: u64,
    sector: &[u8; 512],
) -> Result<Option<RecordHeader>, LogFault>
    ensures { outcome result ≡ sound_header geometry.label position sector.now }
{
    if !is_header(sector) {
        return Ok(None);
    }
    let header = RecordHeader::from(sector);
    if !sound(geometry, &header, position) {
        return Err(LogFault::Unsound {
            sector: geometry.sector_of(position),
        });
    }
    Ok(Some(header))
}

// Whether the newest record stands at `position`, back from the head: there is a header, and its record ends by the head;
// refused where the header is not sound.
#[inline(always)]
pub(crate) fn look_at(
    geometry: Geometry,
    head: u64,
    position: u64,
    sector: &[u8; 512],
) -> Result<bool, LogFault>
    ensures { outcome result ≡ look_at geometry.label head position sector.now }
{
    let header = sound_header(geometry, position, sector)?;
    Ok(header.is_some_and(|header| ends_by(&header, position, head)))
}
