// The runs of a map, and the regions that they take.
ghost use Rattle.std.specs.Prelude.{◌≡◌, ◌*◌, ◌<◌, ◌^◌, length, drop, ◌==◌};
ghost use Rattle.item.specs.Buffer.{regions_fit};
ghost use Rattle.item.specs.Items.{regions_of};
ghost use Rattle.item.specs.Regions.{region};
ghost use Rattle.buffer.specs.Bits.{bits_of};

use crate::map::Map;
use item::item::Item;
use item::place::Place;

// Whether a region is of just the size of a run of `chunks` set bits.
fn is_run(bytes: &[u8], place: Place, chunks: usize) -> bool
    requires { chunks < 2 ^ 20 }
    ensures { result ≡ (length (region bytes.now place) == 128 * chunks) }
{
    place.region(bytes).len() == 128 * chunks
}

// Whether each run of the map has one region of just its size, in order, after the first region.
pub(crate) fn runs_match(map: Map<'_>, item: Item<'_>) -> bool
    ensures { result ≡ regions_fit (bits_of map.entry) (drop 1 (regions_of item.entry)) }
{
    let mut b = 0;
    // Kept: a rule of the project asks for the places with their index; it tells the first region, which has no run, from the others.
    for (i, place) in item.places.iter().enumerate() {
        if i == 0 {
            continue;
        }
        let first = map.first(true, b);
        let end = map.first(false, first);
        if first == map.bits || !is_run(item.bytes, *place, end - first) {
            return false;
        }
        b = end;
    }
    map.first(true, b) == map.bits
}
