// A bank of one kind.
ghost use Rattle.bank.specs.Banks.{one_kind};
ghost use Rattle.bank.specs.Whole.{one_whole};

use crate::bank::ItemBank;
use item::class::Class;
use item::item::Item;
use item::kind::ItemKind;

// A kind, under its type numbers.
#[derive(Debug, Clone, Copy, PartialEq, Eq, Drop)]
pub struct One<K> {
    pub kind: K,
}

impl<K: ItemKind> ItemBank for One<K> {
    ghost kinds = { one_kind K.ItemKind.has (record { early = K.ItemKind.early; meaning = K.ItemKind.meaning }) };

    ghost whole = { one_whole K.ItemKind.has (record { early = K.ItemKind.early; meaning = K.ItemKind.meaning }) K.ItemKind.whole };

    fn has(&self, number: u16) -> bool {
        self.kind.has(number)
    }

    fn is_early(&self, number: u16) -> Option<bool> {
        self.kind.has(number).then(|| self.kind.is_early())
    }

    fn classify(&self, number: u16, item: Item<'_>) -> Option<Class> {
        // Kept: by `then` with a closure the clause was not proved; `then_some` asks the kind of an item that is not its own.
        if !self.kind.has(number) {
            return None;
        }
        Some(self.kind.classify(item))
    }

    fn covers(&self, number: u16, item: Item<'_>, j: usize) -> bool {
        self.kind.has(number) && self.kind.covers(item, j)
    }

    fn lay(&self, number: u16, item: Item<'_>, j: usize, sector: &mut [u8; 512]) {
        if self.kind.has(number) {
            self.kind.lay(item, j, sector);
        }
    }
}
