// The kind of buffers.
ghost use Rattle.std.specs.Prelude.{true, ◌==◌};
ghost use Rattle.item.specs.Buffer.{buffer_meaning};
ghost use Rattle.item.specs.Whole.{buffer_whole};

use crate::{laying, shape};
use item::class::Class;
use item::item::Item;
use item::kind::ItemKind;

// Buffers, of type 0x123C.
#[derive(Debug, Clone, Copy, PartialEq, Eq)]
pub struct Buffers;

// Kept: kinds are open, each with the numbers of its own types, so no enum has them all.
const BUFFER: u16 = 0x123C;

impl ItemKind for Buffers {
    ghost has = { λ n. (n == 0x123C) };

    ghost early = { true };

    ghost meaning = { buffer_meaning };

    ghost whole = { buffer_whole };

    fn has(&self, number: u16) -> bool {
        number == BUFFER
    }

    fn is_early(&self) -> bool {
        true
    }

    fn classify(&self, item: Item<'_>) -> Class {
        shape::classify(item)
    }

    fn covers(&self, item: Item<'_>, j: usize) -> bool {
        laying::covers(item, j)
    }

    fn lay(&self, item: Item<'_>, j: usize, sector: &mut [u8; 512]) {
        laying::lay(item, j, sector);
    }
}
