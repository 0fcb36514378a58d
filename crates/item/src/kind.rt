// What a kind of items is.
ghost use Rattle.std.specs.Prelude.{◌≡◌, ℕ, ◌*◌, Bool, List, length, Option};
ghost use Rattle.keys.specs.declared.patch.PatchKey.{PatchKey};
ghost use Rattle.item.specs.Meaning.{Meaning, patch};
ghost use Rattle.item.specs.Covers.{covers_sector, laid};
ghost use Rattle.item.specs.Classes.{class_of};
ghost use Rattle.item.specs.Items.{regions_of};

use crate::class::Class;
use crate::item::Item;

// A kind of items; what an item means is told by its regions alone.
pub trait ItemKind {
    // the numbers of its types
    ghost has: { ℕ → Bool };

    // whether its patches come first in their transaction
    ghost early: { Bool };

    // what regions mean
    ghost meaning: { List (List ℕ) → Meaning };

    // a patch says of each byte of its range what it gives
    ghost whole: { (rs : List (List ℕ)) (k : PatchKey) (c : List (Option ℕ)) → meaning rs ≡ patch k c → length c ≡ 512 * k.length };

    // Whether a type number is one of the kind's.
    fn has(&self, number: u16) -> bool
        ensures { result ≡ has number };

    // Whether the kind's patches come first.
    fn is_early(&self) -> bool
        ensures { result ≡ early };

    // What an item asks.
    fn classify(&self, item: Item<'_>) -> Class
        ensures { result ≡ class_of (meaning (regions_of item.entry)) };

    // Whether an item gives sector j of its range a byte.
    fn covers(&self, item: Item<'_>, j: usize) -> bool
        ensures { result ≡ covers_sector (meaning (regions_of item.entry)) j };

    // Lays an item over sector j of its range.
    fn lay(&self, item: Item<'_>, j: usize, sector: &mut [u8; 512])
        ensures { sector.new ≡ laid (meaning (regions_of item.entry)) j sector.old };
}
