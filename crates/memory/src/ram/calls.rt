// Making a device in memory, and its calls.
ghost use Rattle.std.specs.Prelude.{◌≡◌, refl};
ghost use Rattle.memory.specs.Cells.{lost_count};
ghost use Rattle.memory.specs.Memories.{memory_state, made_state, new_memory};
ghost use Rattle.memory.specs.Sized.{memory_sized};
ghost use Rattle.device.specs.Steps.{write_answer};

use crate::cell::Cell;
use crate::ram::{Memory, MemoryLimit};
use device::fault::{Cause, DeviceFault};
use device::interface::Device;

const MOST_SECTORS: usize = 1 << 30;

const MOST_UNREADABLE: usize = 16;

const ACTIONS_END: u64 = 1 << 62;

// How many cells are lost.
fn count_lost(cells: &[Cell]) -> usize
    ensures { result ≡ lost_count cells.now }
{
    cells.iter().filter(|cell| cell.is_none()).count()
}

impl Memory {
    // A device of these cells, with so many actions left.
    pub fn new(cells: Vec<Cell>, left: u64, settled: bool) -> Result<Memory, MemoryLimit>
        ensures { made_state result ≡ new_memory cells.items left settled }
    {
        if cells.len() > MOST_SECTORS {
            return Err(MemoryLimit::Sectors);
        }
        if count_lost(&cells) > MOST_UNREADABLE {
            return Err(MemoryLimit::Unreadable);
        }
        if left >= ACTIONS_END {
            return Err(MemoryLimit::Actions);
        }
        Ok(Memory {
            cells,
            left,
            settled,
        })
    }

    // Whether a write to `sector` is accepted.
    fn admit(&self, sector: u64) -> Result<(), DeviceFault>
        ensures { result ≡ write_answer (memory_state self.now) sector }
    {
        if sector >= self.size() {
            return Err(Cause::Beyond.at(sector));
        }
        if self.left == 0 {
            return Err(Cause::Spent.at(sector));
        }
        Ok(())
    }
}

impl Device for Memory {
    ghost size = { λ m. (memory_state m).size };

    ghost contents = { λ m. (memory_state m).contents };

    ghost actions = { λ m. (memory_state m).actions };

    ghost settled = { λ m. (memory_state m).settled };

    ghost state = { memory_state };

    ghost four = { λ _. refl };

    ghost kept = { λ _ _. Unit {0} };

    ghost stays = { λ _. tt };

    ghost joins = { λ _ _ _ _ _. tt };

    ghost sized = { memory_sized };

    ghost small = { λ m. m.few };

    ghost bounded = { λ m. m.bounded };

    fn size(&self) -> u64 {
        self.cells.len() as u64
    }

    fn actions_left(&self) -> u64 {
        self.left
    }

    fn read(&self, sector: u64, out: &mut [u8; 512]) -> Result<(), DeviceFault> {
        let cell = self
            .cells
            .get(sector as usize)
            .ok_or(Cause::Beyond.at(sector))?;
        *out = cell.ok_or(Cause::Unreadable.at(sector))?;
        Ok(())
    }

    #[tactic(auto, using(crate::proofs::Held::lost_set, crate::proofs::Held::held_cells))]
    fn write(&mut self, sector: u64, bytes: &[u8; 512]) -> Result<(), DeviceFault> {
        self.admit(sector)?;
        self.cells[sector as usize] = Some(*bytes);
        self.left -= 1;
        self.settled = false;
        Ok(())
    }

    fn force(&mut self) -> Result<(), DeviceFault> {
        if self.left == 0 {
            return Err(Cause::Spent.at(0));
        }
        self.left -= 1;
        self.settled = true;
        Ok(())
    }
}
