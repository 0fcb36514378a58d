// A place in the data regions of a buffer.
ghost use Rattle.std.specs.Prelude.{◌≡◌, ◌<◌, ◌^◌};
ghost use Rattle.buffer.specs.Walk.{moved, cursor};

use crate::map::Map;

// A data region, and a byte in it.
#[derive(Debug, Clone, Copy, Default, PartialEq, Eq)]
pub struct Cursor {
    pub region: usize,
    pub byte: usize,
}

impl Cursor {
    // Past one chunk, set or not.
    pub(crate) fn step_past(self, here: bool) -> Cursor
        requires few { self.region < 2 ^ 20 }
        requires near { self.byte < 2 ^ 27 }
        ensures { result ≡ moved here self }
    {
        if here {
            return Cursor {
                byte: self.byte + 128,
                ..self
            };
        }
        if self.byte == 0 {
            return self;
        }
        Cursor {
            region: self.region + 1,
            byte: 0,
        }
    }

    // Where the walk over a map stands before chunk b.
    pub(crate) fn before(map: Map<'_>, b: usize) -> Cursor
        requires { b < 2 ^ 20 }
        ensures { result ≡ cursor map.entry.head.now b }
    {
        (0..b).fold(Cursor::default(), |at, k| at.step_past(map.bit(k)))
    }
}
