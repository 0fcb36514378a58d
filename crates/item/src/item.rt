// An item, and its regions as parts of the buffer that it lies in.
ghost use Rattle.std.specs.Prelude.{◌≡◌, [], length, drop, slice_index_or};
ghost use Rattle.item.specs.Items.{regions_of};

use crate::place::Place;
use crate::region::region_at;

// The bytes of a buffer, and where in it the item's regions lie.
#[derive(Clone, Copy, Debug)]
pub struct Item<'a> {
    pub bytes: &'a [u8],
    pub places: &'a [Place],
}

impl<'a> Item<'a> {
    // How many regions it has.
    pub fn count(&self) -> usize
        ensures { result ≡ length (regions_of self.now) }
    {
        self.places.len()
    }

    // Region i, or no bytes if it has none.
    pub fn region(&self, i: usize) -> &'a [u8]
        ensures { result.now ≡ slice_index_or (regions_of self.now) i [] }
    {
        region_at(self.bytes, self.places, i)
    }

    // What it has behind its first region.
    pub fn rest(&self) -> Item<'a>
        ensures { regions_of result ≡ drop 1 (regions_of self.now) }
    {
        Item {
            bytes: self.bytes,
            places: self.places.get(1..).unwrap_or(&[]),
        }
    }
}
