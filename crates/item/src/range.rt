// The range check of an item.
ghost use Rattle.std.specs.Prelude.{◌≡◌};
ghost use Rattle.item.specs.Range.{in_bounds};

use keys::patch::PatchKey;
use label::label::Label;

// Whether a range may be touched on a device of `size` sectors: no part of it is negative, the label's or the log's.
pub fn in_bounds(label: Label, size: u64, key: PatchKey) -> bool
    ensures { result ≡ in_bounds label size key.sector key.length }
{
    if key.sector < 1 {
        return false;
    }
    let first = key.sector as u64;
    let end = first + key.length as u64;
    let log = label.start as u64;
    end <= size && (end <= log || log + label.count as u64 <= first)
}
