// A log on a device.
ghost use Rattle.std.specs.Prelude.{◌≡◌};
ghost use Rattle.device.specs.Steps.{read};
ghost use Rattle.label.specs.Position.{volume_sector};
ghost use Rattle.volume_log.specs.Faults.{outcome};
ghost use Rattle.volume_log.specs.Seeking.{found_on};

use crate::cause::LogFault;
use crate::found::Found;
use crate::scanned::Scanned;
use crate::sectors::read_sector;
use device::fault::DeviceFault;
use device::interface::Device;
use label::geometry::Geometry;

// The log of a volume, where its label says that it is.
#[derive_where(Clone, Copy)]
pub struct Log<'a, D> {
    pub device: &'a D,
    pub geometry: Geometry,
}

impl<'a, D: Device> Log<'a, D> {
    // The bytes of the sector on which a position stands.
    pub fn read(&self, position: u64) -> Result<[u8; 512], DeviceFault>
        ensures { result ≡ read (D.state self.now.device.now) (volume_sector self.now.geometry.label position) }
    {
        read_sector(self.device, self.geometry.sector_of(position))
    }

    // The greatest position, the head, the newest record, the end and the tail; the sectors are read, then judged.
    pub fn seek(&self) -> Result<Found, LogFault>
        ensures { outcome result ≡ found_on (D.state self.now.device.now) self.now.geometry.label }
    {
        Scanned::of(*self)?.find()
    }
}
