// Positions: log sector i in cycle c has the position c * count + i, in a log of count sectors.
ghost use Rattle.std.specs.Prelude.{◌≡◌};
ghost use Rattle.label.specs.Position.{position, split_of};

use crate::geometry::Geometry;

// The position of a pair (cycle, log sector).
pub fn join(geometry: Geometry, place: (u32, u32)) -> u64
    ensures { result ≡ position geometry.label place.0 place.1 }
{
    place.0 as u64 * geometry.count() + place.1 as u64
}

// The pair (cycle, log sector) of a position; none where the cycle has more than 32 bits.
pub fn split(geometry: Geometry, position: u64) -> Option<(u32, u32)>
    ensures { result ≡ split_of geometry.label position }
{
    let count = geometry.count();
    let cycle = u32::try_from(position / count).ok()?;
    Some((cycle, (position % count) as u32))
}
