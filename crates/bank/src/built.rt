// The bank of the two built kinds.
ghost use Rattle.std.specs.Prelude.{◌≡◌};
ghost use Rattle.item.specs.Built.{built};

use crate::bank::ItemBank;
use crate::one::One;
use crate::pair::Pair;
use buffer::kind::Buffers;
use intent::FreeIntents;

// Buffers and free intents.
pub type Built = Pair<One<Buffers>, One<FreeIntents>>;

pub fn built_bank() -> Built
    ensures { ⟦<Built as ItemBank>⟧.kinds ≡ built }
{
    Pair {
        first: One { kind: Buffers },
        second: One { kind: FreeIntents },
    }
}
