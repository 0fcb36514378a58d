// A device that is lent is a device too: a call on the reference is a call on what it refers to.
ghost use Rattle.std.specs.Prelude.{◌≡◌, refl};
ghost use Rattle.std.proofs.Common.{◌∙◌};

use crate::fault::DeviceFault;
use crate::interface::Device;

impl<D: Device> Device for &mut D {
    ghost size = { λ d. D.Device.size d.now };

    ghost contents = { λ d. D.Device.contents d.now };

    ghost actions = { λ d. D.Device.actions d.now };

    ghost settled = { λ d. D.Device.settled d.now };

    ghost state = { λ d. D.Device.state d.now };

    ghost four = { λ d. D.Device.four d.now };

    // lent from the same place, and kept there
    ghost kept = { λ d e. (d.ghost_name ≡ e.ghost_name) × D.Device.kept d.now e.now };

    ghost stays = { λ d. (refl, D.Device.stays d.now) };

    ghost joins = { λ x y z p q. (p.0 ∙ q.0, D.Device.joins x.now y.now z.now p.1 q.1) };

    ghost sized = { λ d. D.Device.sized d.now };

    ghost small = { λ d. D.Device.small d.now };

    ghost bounded = { λ d. D.Device.bounded d.now };

    fn size(&self) -> u64 {
        (**self).size()
    }

    fn actions_left(&self) -> u64 {
        (**self).actions_left()
    }

    fn read(&self, sector: u64, out: &mut [u8; 512]) -> Result<(), DeviceFault> {
        (**self).read(sector, out)
    }

    fn write(&mut self, sector: u64, bytes: &[u8; 512]) -> Result<(), DeviceFault> {
        (**self).write(sector, bytes)
    }

    fn force(&mut self) -> Result<(), DeviceFault> {
        (**self).force()
    }
}
