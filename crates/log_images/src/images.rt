// Volumes in memory, labelled, and then written on.
use device::actions::write_range;
use device::interface::Device;
use journal::labels::label_volume;
use label::geometry::Geometry;
use label::label::Label;
use label::position::split;
use memory::cell::blank_cells;
use memory::ram::Memory;
use std::process::Abort;
use std::test::Fail;
use stored::short::short_record;
use volume_log::cause::LogFault;

// Sectors 32 to 63 are the log, with a window of 16 and records of at most 4096 bytes.
// Kept: shared by programs and tests it would need a crate of its own for one constant.
const LABEL: Label = Label {
    start: 32,
    count: 32,
    window: 16,
    most: 4096,
    uuid: [0, 1, 2, 3, 4, 5, 6, 7, 8, 9, 10, 11, 12, 13, 14, 15],
};

// A device of zeros.
pub fn blank(rt: &HostRuntime, sectors: usize) -> Result<Memory, Fail> {
    let cells = blank_cells(rt.alloc(), sectors)?;
    Ok(Memory::new(cells, 1000, false)?)
}

// A volume just labelled.
pub fn labelled(rt: &HostRuntime) -> Result<Memory, Fail> {
    let mut volume = blank(rt, 64)?;
    label_volume(&mut volume, LABEL)?;
    Ok(volume)
}

// The volume with a sector that cannot be read.
pub fn without(rt: &impl Abort, volume: Memory, sector: usize) -> Result<Memory, Fail> {
    let mut cells = volume.into_cells();
    assert!(rt; sector < cells.len());
    cells[sector] = None;
    Ok(Memory::new(cells, 1000, false)?)
}

// Changes a byte of a sector.
// Kept: that of log_demo always sets byte 100 to 1; shared it would be a public function with five arguments.
pub fn spoil(
    rt: &impl Abort,
    volume: &mut Memory,
    sector: u64,
    at: usize,
    byte: u8,
) -> Result<(), Fail> {
    let mut bytes = [0u8; 512];
    volume.read(sector, &mut bytes)?;
    assert!(rt; at < 512);
    bytes[at] = byte;
    Ok(volume.write(sector, &bytes)?)
}

// Writes a data sector of a cycle below 256 at a log sector.
pub fn put_cycle(rt: &impl Abort, volume: &mut Memory, index: u64, cycle: u8) -> Result<(), Fail> {
    assert!(rt; index < 32);
    let mut bytes = [0u8; 512];
    bytes[3] = cycle;
    Ok(volume.write(LABEL.start as u64 + index, &bytes)?)
}

// Writes a record with its data full of sevens at an even position.
pub fn put_record(
    volume: &mut Memory,
    geometry: Geometry,
    position: u64,
    tail: u64,
) -> Result<(), Fail> {
    let own = split(geometry, position).ok_or_else(|| Fail::new("no such position"))?;
    let oldest = split(geometry, tail).ok_or_else(|| Fail::new("no such tail"))?;
    let sectors = short_record(geometry, own, oldest, 0, 0, [7; 512]);
    Ok(write_range(volume, geometry.sector_of(position), &sectors)?)
}

// The refusal has this number and names this sector.
// Kept: the tests tell a refusal by number and place, as the rules do.
pub fn refused<T: Drop>(
    rt: &impl Abort,
    answer: Result<T, LogFault>,
    number: u8,
    sector: u64,
) -> Result<(), Fail> {
    match answer {
        Ok(_) => Err(Fail::new("it was accepted")),
        Err(fault) => {
            assert_eq!(rt; fault.number(), number);
            assert_eq!(rt; fault.sector(), sector);
            Ok(())
        }
    }
}
