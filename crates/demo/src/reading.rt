// A labelled volume read back: its label, the sectors of its log, its record.
use crate::telling::{tell_bytes, tell_uuid};
use device::interface::Device;
use label::geometry::Geometry;
use label::label::Label;
use label::limits::geometry_of;
use label::position::join;
use memory::ram::Memory;
use record::header::RecordHeader;
use record::heading::{held_cycle, held_position, is_header, sound};
use std::io;
use stored::saved::unpack;
use stored::sum::checksum;
use volume_log::log::Log;
use volume_log::sectors::read_sector;

// Reads the label, the log and its first record.
pub fn tell_log(rt: &HostRuntime, volume: &Memory) -> io::Result<()> {
    let Ok(sector) = read_sector(volume, 0) else {
        return rt.println("sector 0 cannot be read");
    };
    let label = Label::from(&sector);
    println!(rt; "its label, read back: {label}")?;
    tell_uuid(rt, &label)?;
    match geometry_of(label, volume.size()) {
        Some(geometry) => {
            let log = Log {
                device: volume,
                geometry,
            };
            tell_sectors(rt, log)?;
            tell_record(rt, log)
        }
        None => rt.println("  the label breaks a limit"),
    }
}

// The log, sector by sector.
fn tell_sectors(rt: &HostRuntime, log: Log<'_, Memory>) -> io::Result<()> {
    let count = log.geometry.label.count;
    println!(rt; "its log, read back: {count} sectors, in cycle 0 but for these")?;
    for index in 0..count {
        tell_sector(rt, log, index)?;
    }
    Ok(())
}

// A sector of the log, unless it is in cycle 0.
fn tell_sector(rt: &HostRuntime, log: Log<'_, Memory>, index: u32) -> io::Result<()> {
    match log.read(index as u64) {
        Err(fault) => println!(rt; "  volume sector {} cannot be read", fault.sector),
        Ok(sector) if held_cycle(&sector) == 0 => Ok(()),
        Ok(sector) => tell_held(rt, log.geometry, index, &sector),
    }
}

// What a sector of the log holds.
fn tell_held(
    rt: &HostRuntime,
    geometry: Geometry,
    index: u32,
    sector: &[u8; 512],
) -> io::Result<()> {
    println!(rt;
        "  volume sector {}, log sector {index}: {} of cycle {}, position {}",
        geometry.sector_of(index as u64),
        if is_header(sector) { "header" } else { "data" },
        held_cycle(sector),
        held_position(geometry, index, sector)
    )
}

// The record on the first two sectors of the log.
fn tell_record(rt: &HostRuntime, log: Log<'_, Memory>) -> io::Result<()> {
    let geometry = log.geometry;
    let (Ok(first), Ok(mut stored)) = (log.read(0), log.read(1)) else {
        return rt.println("  its record cannot be read");
    };
    let header = RecordHeader::from(&first);
    tell_header(rt, geometry, &header)?;
    tell_verdict(rt, geometry, &header, checksum(&first, &stored))?;
    unpack(&first, &mut stored);
    tell_bytes(rt, "  its data, the first word put back:", &stored[0..20])
}

// The fields of a header.
// Kept: the words are this story's; a Display of `RecordHeader` would put them into the library.
fn tell_header(rt: &HostRuntime, geometry: Geometry, header: &RecordHeader) -> io::Result<()> {
    println!(rt;
        "its record at position {}: {} bytes of data, {} op, tail {}, record before {:08x}",
        join(geometry, header.own),
        header.length,
        header.ops,
        join(geometry, header.tail),
        header.previous
    )
}

// Whether a header is sound, and whether its checksum is the one that was reckoned.
fn tell_verdict(
    rt: &HostRuntime,
    geometry: Geometry,
    header: &RecordHeader,
    sum: u32,
) -> io::Result<()> {
    println!(rt;
        "  header sound: {}, checksum {:08x}, {}",
        sound(geometry, header, join(geometry, header.own)),
        header.sum,
        if header.sum == sum { "right" } else { "wrong" }
    )
}
