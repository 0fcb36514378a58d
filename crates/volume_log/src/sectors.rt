// One sector of a device.
ghost use Rattle.std.specs.Prelude.{◌≡◌};
ghost use Rattle.device.specs.Steps.{read};

use device::fault::DeviceFault;
use device::interface::Device;

// The bytes of a sector of the volume.
pub fn read_sector<D: Device>(device: &D, sector: u64) -> Result<[u8; 512], DeviceFault>
    ensures { result ≡ read (D.state device.now) sector }
{
    let mut bytes = [0u8; 512];
    device.read(sector, &mut bytes)?;
    Ok(bytes)
}
