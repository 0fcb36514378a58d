// What a bank of kinds is.
ghost use Rattle.std.specs.Prelude.{◌≡◌, is_some};
ghost use Rattle.item.specs.Meaning.{Bank, WholeBank};
ghost use Rattle.item.specs.Covers.{covers_sector, laid};
ghost use Rattle.item.specs.Items.{regions_of};
ghost use Rattle.bank.specs.Banks.{early_by, class_by, meant_by};

use item::class::Class;
use item::item::Item;

// Kept: the number beside the item, since it chooses the kind, and a kind is asked of the item alone.
// A bank has one kind or none for a type number. Its calls are those of the kind, with the number in front.
pub trait ItemBank {
    ghost kinds: { Bank };

    // patches of its kinds say of each byte of their range what they give
    ghost whole: { WholeBank kinds };

    // Whether it has a kind for the number.
    fn has(&self, number: u16) -> bool
        ensures { result ≡ is_some (kinds number) };

    // Whether the kind's patches come first in their transaction.
    fn is_early(&self, number: u16) -> Option<bool>
        ensures { result ≡ early_by (kinds number) };

    // What an item asks; nothing where it has no kind.
    fn classify(&self, number: u16, item: Item<'_>) -> Option<Class>
        ensures { result ≡ class_by (kinds number) (regions_of item.entry) };

    // Whether an item gives sector j of its range a byte.
    fn covers(&self, number: u16, item: Item<'_>, j: usize) -> bool
        ensures { result ≡ covers_sector (meant_by (kinds number) (regions_of item.entry)) j };

    // Lays an item over sector j of its range.
    fn lay(&self, number: u16, item: Item<'_>, j: usize, sector: &mut [u8; 512])
        ensures { sector.new ≡ laid (meant_by (kinds number) (regions_of item.entry)) j sector.old };
}
