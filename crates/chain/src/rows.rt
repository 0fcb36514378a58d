// The data sectors of a record, as they are stored.
ghost use Rattle.std.specs.Prelude.{◌≡◌, ◌+◌, ◌*◌, ◌/◌, ◌^◌, ◌<◌, length, Ok};
ghost use Rattle.codec.specs.Fields.{joined};
ghost use Rattle.device.specs.Steps.{read_answer, read_bytes};
ghost use Rattle.label.specs.Position.{volume_sector};
ghost use Rattle.chain.specs.Rows.{row, told, sectors_on, read_before, over};

use device::fault::DeviceFault;
use device::interface::Device;
use volume_log::log::Log;

// Reads the sector of a position over 512 bytes; one that cannot be read leaves them as they were.
fn read_over<D: Device>(log: &Log<D>, position: u64, bytes: &mut [u8]) -> Result<(), DeviceFault>
    requires { length bytes.old ≡ 512 }
    ensures answer { result ≡ read_answer (D.state log.now.device.now) (volume_sector log.now.geometry.label position) }
    ensures bytes { bytes.new ≡ read_bytes (D.state log.now.device.now) (volume_sector log.now.geometry.label position) bytes.old }
{
    match bytes.as_mut_array::<512>() {
        Some(sector) => log.device.read(log.geometry.sector_of(position), sector),
        None => Ok(()),
    }
}

// Reads the sectors of the positions from `first` on into a buffer of whole sectors, up to the first that cannot be read.
// Kept: the place by its number. A loop over `as_chunks_mut` was tried and not proved: no clause says what the buffer ends as.
pub(crate) fn read_row<D: Device>(
    log: &Log<D>,
    first: u64,
    buffer: &mut [u8],
) -> Result<(), DeviceFault>
    requires { first + length buffer.old / 512 < 2 ^ 64 }
    ensures answer { result ≡ told (sectors_on (D.state log.now.device.now) log.now.geometry.label first (length buffer.old / 512)) }
    ensures buffer { let k = read_before (D.state log.now.device.now) log.now.geometry.label first (length buffer.old / 512) in buffer.new ≡ over k (joined (row (D.state log.now.device.now) log.now.geometry.label first k)) buffer.old }
    ensures whole { result ≡ Ok tt → length (joined (row (D.state log.now.device.now) log.now.geometry.label first (length buffer.old / 512))) ≡ 512 * (length buffer.old / 512) }
{
    for k in 0..buffer.len() / 512 {
        read_over(log, first + k as u64, &mut buffer[512 * k..512 * (k + 1)])?;
    }
    Ok(())
}
