// The kind of free intents.
#![tactic(auto)]

ghost use Rattle.std.specs.Prelude.{◌≡◌, false, ◌||◌, ◌==◌};
ghost use Rattle.item.specs.Classes.{class_of};
ghost use Rattle.item.specs.Intent.{intent_fits, intent_meaning};
ghost use Rattle.item.specs.Whole.{intent_whole};
ghost use Rattle.intent.specs.Intents.{intent_of};

use codec::fields::Number;
use item::class::Class;
use item::item::Item;
use item::kind::ItemKind;

// Intents to free something, and what closes them.
#[derive(Debug, Clone, Copy, PartialEq, Eq)]
pub struct FreeIntents;

// Kept: any number but OPEN closes what it names, so an enum of the two types would need a third variant that acts as its second.
const OPEN: u16 = 0x1236;

const CLOSE: u16 = 0x1237;

// Whether a region is an intent's: its count of extents is right, and they end it.
fn fits(region: &[u8]) -> bool
    ensures { result ≡ intent_fits region.now }
{
    let extents = u32::le_at(region, 4);
    let least = if u16::le_at(region, 0) == OPEN { 1 } else { 0 };
    region.len() >= 16
        && (least..=16).contains(&extents)
        && region.len() == 16 + 16 * extents as usize
}

// What an intent's one region asks.
fn intent_class(region: &[u8]) -> Class
    ensures { result ≡ class_of (intent_of region.now) }
{
    if !fits(region) {
        return Class::Malformed;
    }
    let id = u64::le_at(region, 8);
    match u16::le_at(region, 0) {
        OPEN => Class::Open(id),
        _ => Class::Close(id),
    }
}

impl ItemKind for FreeIntents {
    ghost has = { λ n. (n == 0x1236) || n == 0x1237 };

    ghost early = { false };

    ghost meaning = { intent_meaning };

    ghost whole = { intent_whole };

    fn has(&self, number: u16) -> bool {
        number == OPEN || number == CLOSE
    }

    fn is_early(&self) -> bool {
        false
    }

    fn classify(&self, item: Item<'_>) -> Class {
        if item.count() != 1 {
            return Class::Malformed;
        }
        intent_class(item.region(0))
    }

    fn covers(&self, _item: Item<'_>, _j: usize) -> bool {
        false
    }

    fn lay(&self, _item: Item<'_>, _j: usize, _sector: &mut [u8; 512]) {}
}
