// A bank of two banks.
ghost use Rattle.bank.specs.Banks.{first_of};
ghost use Rattle.bank.specs.Whole.{first_whole};

use crate::bank::ItemBank;
use item::class::Class;
use item::item::Item;

// The kinds of two banks; where both have a kind for a number, it is that of the first.
#[derive(Debug, Clone, Copy, PartialEq, Eq, Drop)]
pub struct Pair<A, B> {
    pub first: A,
    pub second: B,
}

impl<A: ItemBank, B: ItemBank> ItemBank for Pair<A, B> {
    ghost kinds = { first_of A.ItemBank.kinds B.ItemBank.kinds };

    ghost whole = { first_whole A.ItemBank.kinds B.ItemBank.kinds A.ItemBank.whole B.ItemBank.whole };

    fn has(&self, number: u16) -> bool {
        self.first.has(number) || self.second.has(number)
    }

    fn is_early(&self, number: u16) -> Option<bool> {
        self.first
            .is_early(number)
            .or_else(|| self.second.is_early(number))
    }

    fn classify(&self, number: u16, item: Item<'_>) -> Option<Class> {
        // Kept: by `or_else` the clause was not proved; `or` asks the second bank of an item that is the first's.
        match self.first.classify(number, item) {
            None => self.second.classify(number, item),
            found => found,
        }
    }

    // Kept: `covers` and `lay` give no `Option`, so they ask which of the two banks has the number.
    fn covers(&self, number: u16, item: Item<'_>, j: usize) -> bool {
        if self.first.has(number) {
            self.first.covers(number, item, j)
        } else {
            self.second.covers(number, item, j)
        }
    }

    fn lay(&self, number: u16, item: Item<'_>, j: usize, sector: &mut [u8; 512]) {
        if self.first.has(number) {
            self.first.lay(number, item, j, sector);
        } else {
            self.second.lay(number, item, j, sector);
        }
    }
}
