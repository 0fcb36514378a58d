// What a lender has when a slice of its device is gone: the device with what was done through the slice.
ghost use Rattle.std.specs.Prelude.{◌≡◌};
ghost use Rattle.slicing.specs.Slices.{slice_state, slice_write};
ghost use Rattle.device.specs.Steps.{write_answer, force_answer, force_step};

use crate::extent::Extent;
use crate::part::LentSlice;
use device::fault::DeviceFault;
use device::interface::Device;

// Writes a sector of the extent, through a slice of the lent device.
#[tactic(auto, using(crate::proofs::Lent::lent_written))]
pub fn write_lent<D: Device>(
    d: &mut D,
    extent: Extent,
    sector: u64,
    bytes: &[u8; 512],
) -> Result<(), DeviceFault>
    ensures answer { result ≡ write_answer (slice_state (D.state d.old) extent.start extent.count) sector }
    ensures after { D.state d.new ≡ slice_write (D.state d.old) extent.start extent.count sector bytes.now }
    ensures kept { D.kept d.old d.new }
{
    let mut part: LentSlice<D> = LentSlice::of(d, extent);
    part.write(sector, bytes)
}

// Forces the lent device, through a slice of it.
#[tactic(auto, using(crate::proofs::Lent::lent_forced))]
pub fn force_lent<D: Device>(d: &mut D, extent: Extent) -> Result<(), DeviceFault>
    ensures answer { result ≡ force_answer (D.state d.old) }
    ensures after { D.state d.new ≡ force_step (D.state d.old) }
    ensures kept { D.kept d.old d.new }
{
    let mut part: LentSlice<D> = LentSlice::of(d, extent);
    part.force()
}
