// Writing sectors in a row, up to the first refusal.
ghost use Rattle.std.specs.Prelude.{◌≡◌, ◌^◌, ◌<◌, ℕ, List};
ghost use Rattle.std.specs.Iterator.{IsFinite, AlwaysYields, size};
ghost use Rattle.device.specs.Actions.{run, writes, zero_writes};

use crate::fault::DeviceFault;
use crate::interface::Device;
use std::iter;

// Writes the sectors that an iterator gives, from `first` on.
fn write_each<'a, D: Device, I: Iterator<Item = &'a [u8; 512]> + Drop>(
    d: &mut D,
    first: u64,
    sectors: I,
) -> Result<(), DeviceFault>
    requires can { I.can_next sectors }
    requires ends { IsFinite (I.remaining sectors) }
    requires few { size (I.remaining sectors) < 2 ^ 64 }
    ensures ran { (bs : List (List ℕ)) → AlwaysYields I.next_gives (λ b. b.now) sectors bs → run (writes first bs) (D.state d.old) ≡ record { answer = result; after = D.state d.new } }
    ensures kept { D.kept d.old d.new }
{
    for (offset, bytes) in sectors.enumerate() {
        d.write(first + offset as u64, bytes)?;
    }
    Ok(())
}

// Writes the sectors from `first` on.
#[tactic(auto, using(crate::proofs::Turns::slice_yields))]
pub fn write_range<D: Device>(
    d: &mut D,
    first: u64,
    sectors: &[[u8; 512]],
) -> Result<(), DeviceFault>
    ensures ran { run (writes first sectors.now) (D.state d.old) ≡ record { answer = result; after = D.state d.new } }
    ensures kept { D.kept d.old d.new }
{
    write_each(d, first, sectors.iter())
}

// Writes `count` sectors of zeros from `first` on.
pub fn write_zeros<D: Device>(d: &mut D, first: u64, count: u64) -> Result<(), DeviceFault>
    ensures ran { run (zero_writes first count) (D.state d.old) ≡ record { answer = result; after = D.state d.new } }
    ensures kept { D.kept d.old d.new }
{
    write_each(d, first, iter::repeat_n(&[0; 512], count as usize))
}
