// The limits of a label.
ghost use Rattle.std.specs.Prelude.{◌≡◌, true, false, MatchOption};
ghost use Rattle.label.specs.Label.{limits};

use crate::geometry::Geometry;
use crate::label::Label;

// The label as a geometry, if each field keeps its limit on a device of `size` sectors.
pub fn geometry_of(label: Label, size: u64) -> Option<Geometry>
    ensures { MatchOption result (limits label size ≡ false) (λ g. (limits label size ≡ true) × (g.label ≡ label)) }
{
    if label.start < 1 || size < label.start as u64 + label.count as u64 {
        return None;
    }
    if !(16..=2_097_152).contains(&label.count) {
        return None;
    }
    if label.most % 512 != 0 || !(512..=32_768).contains(&label.most) {
        return None;
    }
    if label.window < 1 + label.most / 512 || (label.count as u64) < 2 * label.window as u64 {
        return None;
    }
    Some(Geometry { label })
}
