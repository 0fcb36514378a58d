// A device in memory.
ghost use Rattle.std.specs.Prelude.{◌≡◌, ◌^◌, ◌<◌, ◌≤◌, vec_len};
ghost use Rattle.memory.specs.Cells.{lost_count};

use crate::cell::Cell;
use thiserror::Error;

pub mod calls;

// At most 2^30 cells, of which at most 16 are lost, and fewer than 2^62 actions left.
#[derive(Drop)]
pub struct Memory {
    cells: Vec<Cell>,
    left: u64,
    settled: bool,
    ghost few: { vec_len cells ≤ 2 ^ 30 },
    ghost readable: { lost_count cells.items ≤ 16 },
    ghost bounded: { left < 2 ^ 62 },
}

// Which limit of a device in memory is broken.
#[derive(Clone, Copy, PartialEq, Eq, Debug, Error)]
pub enum MemoryLimit {
    #[error("too many sectors")]
    Sectors,
    #[error("too many sectors that cannot be read")]
    Unreadable,
    #[error("too many actions")]
    Actions,
}

impl Memory {
    // Whether a force came after the last write.
    pub fn settled(&self) -> bool
        ensures { result ≡ self.now.settled }
    {
        self.settled
    }

    // The cells, with the device gone.
    pub fn into_cells(self) -> Vec<Cell>
        ensures { result ≡ self.cells }
    {
        let Memory {
            cells,
            left: _,
            settled: _,
        } = self;
        cells
    }
}
