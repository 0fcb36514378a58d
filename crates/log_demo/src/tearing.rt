// Records written on a volume, and what a cut of power or a bad byte makes of them.
use device::actions::write_range;
use device::fault::DeviceFault;
use device::interface::Device;
use label::geometry::Geometry;
use memory::ram::Memory;
use stored::short::short_record;

// Writes a record of zeros at a log sector in cycle 1, its tail at the first position of that cycle.
fn put_record(volume: &mut Memory, geometry: Geometry, index: u32) -> Result<(), DeviceFault> {
    let sectors = short_record(geometry, (1, index), (1, 0), 0, 0, [0; 512]);
    write_range(volume, geometry.start() + index as u64, &sectors)
}

// Three records at the log sectors 2, 4 and 6; then a cut after which log sector 5 holds what it held before them: zeros.
pub fn tear(volume: &mut Memory, geometry: Geometry) -> Result<(), DeviceFault> {
    put_record(volume, geometry, 2)?;
    put_record(volume, geometry, 4)?;
    put_record(volume, geometry, 6)?;
    volume.write(geometry.start() + 5, &[0u8; 512])
}

// Changes a byte of a sector.
// Kept: that of the tests sets any byte to anything; shared it would be a public function with five arguments.
pub fn spoil(volume: &mut Memory, sector: u64) -> Result<(), DeviceFault> {
    let mut bytes = [0u8; 512];
    volume.read(sector, &mut bytes)?;
    bytes[100] = 1;
    volume.write(sector, &bytes)
}
