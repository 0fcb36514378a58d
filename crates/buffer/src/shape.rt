// What a buffer asks, by its fields, its map and its regions.
ghost use Rattle.std.specs.Prelude.{◌≡◌, ◌+◌, ◌*◌, ◌≤◌, ◌&&◌, length, drop, ◌==◌};
ghost use Rattle.codec.specs.Fields.{le16, le32};
ghost use Rattle.item.specs.Buffer.{map_bits, none_set, buffer_length, map_words, flagged, buffer_meaning};
ghost use Rattle.item.specs.Classes.{class_of};
ghost use Rattle.item.specs.Items.{regions_of};

use crate::map::Map;
use crate::runs::runs_match;
use codec::fields::Number;
use item::class::Class;
use item::item::Item;
use keys::patch::PatchKey;

// The flags of a patch and of a cancel.
// Kept: one `match` tells the flags apart, and an enum would add a conversion from numbers that is longer than it.
const PATCH: u16 = 0;

const CANCEL: u16 = 2;

// Whether the map has its words, ends the region, and has no bit set beyond the range.
fn has_sound_map(head: &[u8]) -> bool
    ensures { result ≡ (le32 head.now 16 == map_words head.now && length head.now == 20 + 4 * map_words head.now && none_set (drop (4 * buffer_length head.now) (map_bits head.now 0 (32 * map_words head.now)))) }
{
    let length = usize::from(u16::le_at(head, 6));
    let words = length.div_ceil(8);
    u32::le_at(head, 16) as usize == words
        && head.len() == 20 + 4 * words
        && Map::of(head).none_set(4 * length, 32 * words)
}

// What a buffer asks by its flags, whatever its length.
fn flagged(head: &[u8], item: Item<'_>) -> Class
    ensures { result ≡ class_of (flagged (le16 head.now 4) head.now (drop 1 (regions_of item.entry))) }
{
    let key = PatchKey {
        sector: i64::le_at(head, 8),
        length: u32::from(u16::le_at(head, 6)),
    };
    match u16::le_at(head, 4) {
        CANCEL if item.count() <= 1 => Class::Cancel(key),
        PATCH if has_sound_map(head) && runs_match(Map::of(head), item) => Class::Patch(key),
        _ => Class::Malformed,
    }
}

// What a buffer asks.
pub(crate) fn classify(item: Item<'_>) -> Class
    ensures { result ≡ class_of (buffer_meaning (regions_of item.entry)) }
{
    let head = item.region(0);
    match u16::le_at(head, 6) {
        1..=64 if head.len() >= 20 => flagged(head, item),
        _ => Class::Malformed,
    }
}
