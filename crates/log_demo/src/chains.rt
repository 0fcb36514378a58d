// The log of a volume looked through: just labelled, torn by a cut of power, and with a byte of a record changed.
use crate::tearing::{spoil, tear};
use chain::records::Chain;
use journal::labels::label_volume;
use label::geometry::Geometry;
use label::label::Label;
use label::position::join;
use memory::cell::blank_cells;
use memory::ram::Memory;
use record::header::RecordHeader;
use std::io;
use volume_log::found::Found;
use volume_log::headers::end_of;
use volume_log::labels::read_label;
use volume_log::log::Log;

// Tells of the three logs on a volume of 64 sectors with this label.
pub fn tell_chains(rt: &HostRuntime, label: Label) -> io::Result<()> {
    let cells = blank_cells(rt.alloc(), 64)?;
    match Memory::new(cells, 1000, false) {
        Ok(mut volume) => tell_volume(rt, &mut volume, label),
        Err(_) => rt.println("no such device"),
    }
}

fn tell_volume(rt: &HostRuntime, volume: &mut Memory, label: Label) -> io::Result<()> {
    if label_volume(volume, label).is_err() {
        return rt.println("it cannot be labelled");
    }
    match read_label(volume) {
        Ok(geometry) => tell_logs(rt, volume, geometry),
        Err(fault) => println!(rt; "  {fault}"),
    }
}

fn tell_logs(rt: &HostRuntime, volume: &mut Memory, geometry: Geometry) -> io::Result<()> {
    rt.println("\nthe log of a volume just labelled:")?;
    tell_log(rt, volume, geometry)?;
    rt.println(
        "\nrecords at 34, 36 and 38, not forced; power is cut, and position 37 is as before:",
    )?;
    if tear(volume, geometry).is_err() {
        return rt.println("it cannot be written");
    }
    tell_log(rt, volume, geometry)?;
    rt.println("\na byte of the record at 34 is changed:")?;
    if spoil(volume, 35).is_err() {
        return rt.println("it cannot be written");
    }
    tell_log(rt, volume, geometry)
}

// What is found in the log, and its chain of records.
fn tell_log(rt: &HostRuntime, volume: &Memory, geometry: Geometry) -> io::Result<()> {
    let log = Log {
        device: volume,
        geometry,
    };
    match log.seek() {
        Ok(found) => {
            tell_found(rt, found)?;
            tell_records(rt, log, found)
        }
        Err(fault) => println!(rt; "  {fault}"),
    }
}

// Kept: the words are this story's; a Display of `Found` would put them into the library.
fn tell_found(rt: &HostRuntime, found: Found) -> io::Result<()> {
    let Found {
        greatest,
        head,
        newest,
        end,
        tail,
    } = found;
    println!(rt;
        "  greatest position {greatest}, head {head}, newest record {newest}, end {end}, tail {tail}"
    )
}

// The records from the tail to the end, up to the first that is refused.
fn tell_records(rt: &HostRuntime, log: Log<'_, Memory>, found: Found) -> io::Result<()> {
    let chain = Chain {
        log,
        end: found.end,
    };
    let mut buffer = [0u8; 32768];
    let mut position = found.tail;
    // Kept: a `while`, since where the next record begins is known only from the one that was read.
    while position < chain.end {
        match chain.read_record(position, &mut buffer) {
            Ok(header) => {
                tell_header(rt, log.geometry, position, &header)?;
                position = end_of(&header, position);
            }
            Err(fault) => return println!(rt; "  {fault}"),
        }
    }
    Ok(())
}

// Kept: the words are this story's; a Display of `RecordHeader` would put them into the library.
fn tell_header(
    rt: &HostRuntime,
    geometry: Geometry,
    position: u64,
    header: &RecordHeader,
) -> io::Result<()> {
    let length = header.length;
    let tail = join(geometry, header.tail);
    println!(rt; "  record at {position}: {length} bytes of data, tail {tail}, checksum right")
}
