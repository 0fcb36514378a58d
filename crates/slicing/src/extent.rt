// A run of sectors, and calls on that part of a device: cut off at the device's end, a refusal names the part's own sector.
ghost use Rattle.std.specs.Prelude.{◌≡◌, ◌+◌, Ok, Err, cond, nat_lt};
ghost use Rattle.device.specs.declared.fault.Cause.TheVariants.{Beyond};
ghost use Rattle.slicing.specs.Slices.{slice_state, slice_write};
ghost use Rattle.device.specs.Steps.{fault, read_answer, read_bytes, write_answer};

use device::fault::{Cause, DeviceFault};
use device::interface::Device;

// The sectors from `start` on, `count` of them.
#[derive(Clone, Copy, PartialEq, Eq, Debug)]
pub struct Extent {
    pub start: u64,
    pub count: u64,
}

impl Extent {
    // How many sectors this part of `d` has.
    pub fn size<D: Device>(self, d: &D) -> u64
        ensures { result ≡ (slice_state (D.state d.now) self.start self.count).size }
    {
        d.size().saturating_sub(self.start).min(self.count)
    }

    // Where `sector` of this part lies on `d`.
    fn place<D: Device>(self, d: &D, sector: u64) -> Result<u64, DeviceFault>
        ensures { result ≡ cond (nat_lt sector (slice_state (D.state d.now) self.start self.count).size) (Ok (self.start + sector)) (Err (fault Beyond sector)) }
    {
        if sector >= self.size(d) {
            return Err(Cause::Beyond.at(sector));
        }
        Ok(self.start + sector)
    }

    // Reads a sector of this part of `d`.
    pub fn read<D: Device>(self, d: &D, sector: u64, out: &mut [u8; 512]) -> Result<(), DeviceFault>
        ensures answer { result ≡ read_answer (slice_state (D.state d.now) self.start self.count) sector }
        ensures bytes { out.new ≡ read_bytes (slice_state (D.state d.now) self.start self.count) sector out.old }
    {
        d.read(self.place(d, sector)?, out)
            .map_err(|fault| fault.cause.at(sector))
    }

    // Writes a sector of this part of the lent device `d`.
    pub fn write<D: Device>(
        self,
        d: &mut D,
        sector: u64,
        bytes: &[u8; 512],
    ) -> Result<(), DeviceFault>
        ensures answer { result ≡ write_answer (slice_state (D.state d.old) self.start self.count) sector }
        ensures after { D.state d.new ≡ slice_write (D.state d.old) self.start self.count sector bytes.now }
        ensures kept { D.kept d.old d.new }
    {
        let place = self.place(d, sector)?;
        d.write(place, bytes)
            .map_err(|fault| fault.cause.at(sector))
    }
}
