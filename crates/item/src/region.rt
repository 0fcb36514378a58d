// A region of an item whose places need not last as long as its bytes.
ghost use Rattle.std.specs.Prelude.{◌≡◌, [], slice_index_or};
ghost use Rattle.item.specs.Regions.{regions};

use crate::place::Place;

// Region i of the item with these bytes and places, or no bytes if it has none.
pub fn region_at<'a>(bytes: &'a [u8], places: &[Place], i: usize) -> &'a [u8]
    ensures { result.now ≡ slice_index_or (regions bytes.now places.now) i [] }
{
    match places.get(i) {
        Some(place) => place.region(bytes),
        None => &[],
    }
}
