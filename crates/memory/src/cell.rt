// A sector of memory.
ghost use Rattle.std.specs.Prelude.{◌≡◌, replicate, IfOk};

use std::alloc::{AllocError, Global};

// Its bytes, or none where it is lost: it cannot be read.
pub type Cell = Option<[u8; 512]>;

// So many cells of zeros.
pub fn blank_cells(heap: Global, count: usize) -> Result<Vec<Cell>, AllocError>
    ensures { IfOk result (λ v. v.items ≡ replicate count (Some (replicate 512 0))) }
{
    vec![in heap; Some([0; 512]); count]
}
