// A slice of a device, cut off at the device's end.
ghost use Rattle.std.specs.Prelude.{◌≡◌, refl};
ghost use Rattle.std.proofs.Common.{ap, ◌∙◌};
ghost use Rattle.slicing.specs.Slices.{slice_state, Outside};
ghost use Rattle.slicing.specs.Sized.{slice_sized, slice_small, outside_joins};

use crate::extent::Extent;
use device::fault::DeviceFault;
use device::interface::Device;

// The sectors of `extent` on a device, in their own numbering.
#[derive(Drop)]
pub struct Slice<D> {
    pub inner: D,
    pub extent: Extent,
}

// A slice of a device that is lent: when it is gone the lender has the device with what was written through it.
pub type LentSlice<'a, D> = Slice<&'a mut D>;

impl<D: Device> Slice<D> {
    pub fn of(inner: D, extent: Extent) -> Self
        ensures { result ≡ record { inner = inner; extent = extent } }
    {
        Slice { inner, extent }
    }

    // The device that it is a slice of.
    pub fn into_inner(self) -> D
        ensures { result ≡ self.inner }
    {
        let Slice { inner, extent: _ } = self;
        inner
    }
}

impl<D: Device> Device for Slice<D> {
    ghost size = { λ p. (slice_state (D.Device.state p.inner) p.extent.start p.extent.count).size };

    ghost contents = { λ p. (slice_state (D.Device.state p.inner) p.extent.start p.extent.count).contents };

    ghost actions = { λ p. (D.Device.state p.inner).actions };

    ghost settled = { λ p. (D.Device.state p.inner).settled };

    ghost state = { λ p. slice_state (D.Device.state p.inner) p.extent.start p.extent.count };

    ghost four = { λ _. refl };

    // the same part of the same device, of which the rest is as it was
    ghost kept = { λ p q. D.Device.kept p.inner q.inner × (p.extent ≡ q.extent) × Outside p.extent.start p.extent.count (D.Device.state p.inner) (D.Device.state q.inner) };

    ghost stays = { λ p. (D.Device.stays p.inner, refl, (refl, refl, refl)) };

    ghost joins = { λ x y z p q. (D.Device.joins x.inner y.inner z.inner p.0 q.0, p.1 ∙ q.1, outside_joins x.extent.start x.extent.count y.extent.start y.extent.count (D.Device.state x.inner) (D.Device.state y.inner) (D.Device.state z.inner) (ap (λ e. e.start) p.1) (ap (λ e. e.count) p.1) p.2 q.2) };

    ghost sized = { λ p. slice_sized (D.Device.state p.inner) p.extent.start p.extent.count (D.Device.sized p.inner) };

    ghost small = { λ p. slice_small (D.Device.state p.inner) p.extent.start p.extent.count (D.Device.small p.inner) };

    ghost bounded = { λ p. D.Device.bounded p.inner };

    fn size(&self) -> u64 {
        self.extent.size(&self.inner)
    }

    fn actions_left(&self) -> u64 {
        self.inner.actions_left()
    }

    fn read(&self, sector: u64, out: &mut [u8; 512]) -> Result<(), DeviceFault> {
        self.extent.read(&self.inner, sector, out)
    }

    #[tactic(auto, using(crate::proofs::Shift::slice_written))]
    fn write(&mut self, sector: u64, bytes: &[u8; 512]) -> Result<(), DeviceFault> {
        self.extent.write(&mut self.inner, sector, bytes)
    }

    fn force(&mut self) -> Result<(), DeviceFault> {
        self.inner.force()
    }
}
