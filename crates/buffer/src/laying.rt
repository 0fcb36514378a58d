// What a buffer's patch gives to a sector of its range.
ghost use Rattle.std.specs.Prelude.{◌≡◌, ℕ, ◌+◌, ◌*◌, ◌<◌, ◌≤◌, true, length, slice_index};
ghost use Rattle.codec.specs.Fields.{joined};
ghost use Rattle.item.specs.Buffer.{regions_fit, cover, buffer_meaning};
ghost use Rattle.item.specs.Covers.{cover_of, overlay, covers_sector, laid};
ghost use Rattle.item.specs.Items.{regions_of};
ghost use Rattle.buffer.specs.Bits.{bits_of};

use crate::cursor::Cursor;
use crate::map::Map;
use crate::shape::classify;
use item::class::Class;
use item::item::Item;

// Whether a buffer gives sector k of its range a byte.
pub(crate) fn covers(item: Item<'_>, k: usize) -> bool
    ensures { result ≡ covers_sector (buffer_meaning (regions_of item.entry)) k }
{
    let Class::Patch(key) = classify(item) else {
        return false;
    };
    k < key.length as usize && !Map::of(item.region(0)).none_set(4 * k, 4 * k + 4)
}

// Lays 128 bytes of a region, from `byte` on, over chunk i of a sector.
fn lay_chunk(sector: &mut [u8; 512], i: usize, region: &[u8], byte: usize)
    requires low { i < 4 }
    requires room { byte + 128 ≤ length region.now }
    ensures inside { (j : ℕ) → j < 128 → slice_index sector.new (128 * i + j) ≡ slice_index region.now (byte + j) }
    ensures before { (j : ℕ) → j < 128 * i → slice_index sector.new j ≡ slice_index sector.old j }
    ensures behind { (j : ℕ) → 128 * i + 128 ≤ j → slice_index sector.new j ≡ slice_index sector.old j }
{
    let from = 128 * i;
    sector[from..from + 128].copy_from_slice(&region[byte..byte + 128]);
}

// Lays the chunks of sector k of a map's range, where the regions fit the map.
fn lay_chunks(map: Map<'_>, rest: Item<'_>, k: usize, sector: &mut [u8; 512])
    requires within { 4 * k + 4 ≤ map.bits }
    requires fits { regions_fit (bits_of map) (regions_of rest) ≡ true }
    ensures { sector.new ≡ overlay (cover_of (cover (bits_of map.entry) (joined (regions_of rest.entry))) k) sector.old }
{
    let mut at = Cursor::before(map, 4 * k);
    // Kept: of a sector lent out by `chunks_exact_mut` or `as_chunks_mut` a proof knows no byte once the loan is over, so a chunk is cut out by its number.
    for i in 0..4 {
        let here = map.bit(4 * k + i);
        if here {
            lay_chunk(sector, i, rest.region(at.region), at.byte);
        }
        at = at.step_past(here);
    }
}

// Lays a buffer over sector k of its range: each byte that it gives a value gets it, the others stay.
pub(crate) fn lay(item: Item<'_>, k: usize, sector: &mut [u8; 512])
    ensures { sector.new ≡ laid (buffer_meaning (regions_of item.entry)) k sector.old }
{
    let Class::Patch(key) = classify(item) else {
        return;
    };
    if k < key.length as usize {
        lay_chunks(Map::of(item.region(0)), item.rest(), k, sector);
    }
}
