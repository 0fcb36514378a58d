// What is found on them, and how they are refused.
use crate::images::{blank, labelled, put_cycle, put_record, refused, spoil, without};
use chain::records::{Chain, data_of};
use device::interface::Device;
use memory::ram::Memory;
use std::process::Abort;
use std::test::Fail;
use volume_log::found::Found;
use volume_log::labels::read_label;
use volume_log::log::Log;

// What is found in a log just labelled: its one record stands at position 32.
const FRESH: Found = Found {
    greatest: 33,
    head: 34,
    newest: 32,
    end: 34,
    tail: 32,
};

// The log of a volume, by its label.
fn log_of(volume: &Memory) -> Result<Log<'_, Memory>, Fail> {
    Ok(Log {
        device: volume,
        geometry: read_label(volume)?,
    })
}

// This is found.
fn finds(rt: &impl Abort, volume: &Memory, wanted: Found) -> Result<(), Fail> {
    assert_eq!(rt; log_of(volume)?.seek()?, wanted);
    Ok(())
}

// Looking through the log is refused so.
fn lost(rt: &impl Abort, volume: &Memory, number: u8, sector: u64) -> Result<(), Fail> {
    refused(rt, log_of(volume)?.seek(), number, sector)
}

// Reading the record at a position that must end by `end` is refused so.
fn bad(
    rt: &impl Abort,
    volume: &Memory,
    end: u64,
    position: u64,
    number: u8,
    sector: u64,
) -> Result<(), Fail> {
    let log = log_of(volume)?;
    let mut buffer = [0u8; 4096];
    let answer = Chain { log, end }.read_record(position, &mut buffer);
    refused(rt, answer, number, sector)
}

// The record at a position is read, has one sector of data, and its byte `at` is this.
fn holds(
    rt: &impl Abort,
    volume: &Memory,
    end: u64,
    position: u64,
    at: usize,
    byte: u8,
) -> Result<(), Fail> {
    let log = log_of(volume)?;
    let mut buffer = [0u8; 4096];
    let header = Chain { log, end }.read_record(position, &mut buffer)?;
    let bytes = data_of(&header, &buffer);
    assert!(rt; bytes.len() == 512 && at < 512);
    assert_eq!(rt; bytes[at], byte);
    Ok(())
}

#[test]
fn just_labelled(rt: HostRuntime) -> Result<(), Fail> {
    let volume = labelled(&rt)?;
    finds(&rt, &volume, FRESH)?;
    holds(&rt, &volume, 34, 32, 7, 8)?;
    holds(&rt, &volume, 34, 32, 12, 0x6e)
}

#[test]
fn wrapped(rt: HostRuntime) -> Result<(), Fail> {
    let mut volume = labelled(&rt)?;
    let geometry = read_label(&volume)?;
    for k in 17..33 {
        put_record(&mut volume, geometry, 2 * k, 40)?;
    }
    let wanted = Found {
        greatest: 65,
        head: 66,
        newest: 64,
        end: 66,
        tail: 40,
    };
    finds(&rt, &volume, wanted)?;
    holds(&rt, &volume, 66, 62, 0, 7)?;
    holds(&rt, &volume, 66, 64, 3, 7)
}

#[test]
fn torn_in_its_window(rt: HostRuntime) -> Result<(), Fail> {
    let mut volume = labelled(&rt)?;
    let geometry = read_label(&volume)?;
    put_record(&mut volume, geometry, 34, 32)?;
    put_record(&mut volume, geometry, 36, 32)?;
    put_record(&mut volume, geometry, 38, 32)?;
    put_cycle(&rt, &mut volume, 5, 0)?;
    let wanted = Found {
        greatest: 39,
        head: 37,
        newest: 34,
        end: 36,
        tail: 32,
    };
    finds(&rt, &volume, wanted)
}

#[test]
fn unreadable(rt: HostRuntime) -> Result<(), Fail> {
    lost(&rt, &without(&rt, labelled(&rt)?, 40)?, 3, 40)?;
    bad(&rt, &without(&rt, labelled(&rt)?, 33)?, 34, 32, 3, 33)?;
    refused(&rt, read_label(&without(&rt, labelled(&rt)?, 0)?), 3, 0)
}

#[test]
fn no_label(rt: HostRuntime) -> Result<(), Fail> {
    refused(&rt, read_label(&blank(&rt, 64)?), 1, 0)?;
    refused(&rt, read_label(&blank(&rt, 0)?), 1, 0)
}

#[test]
fn not_coherent(rt: HostRuntime) -> Result<(), Fail> {
    let mut volume = labelled(&rt)?;
    for i in 0..32u64 {
        put_cycle(&rt, &mut volume, i, if i < 16 { 3 } else { 2 })?;
    }
    lost(&rt, &volume, 6, 0)?;
    put_cycle(&rt, &mut volume, 8, 1)?;
    lost(&rt, &volume, 5, 40)
}

#[test]
fn no_newest(rt: HostRuntime) -> Result<(), Fail> {
    let mut volume = labelled(&rt)?;
    put_cycle(&rt, &mut volume, 0, 0)?;
    put_cycle(&rt, &mut volume, 1, 0)?;
    lost(&rt, &volume, 6, 0)
}

#[test]
fn unsound(rt: HostRuntime) -> Result<(), Fail> {
    let mut volume = labelled(&rt)?;
    spoil(&rt, &mut volume, 32, 304, 99)?;
    lost(&rt, &volume, 7, 32)?;
    bad(&rt, &volume, 34, 32, 7, 32)
}

#[test]
fn broken_chain(rt: HostRuntime) -> Result<(), Fail> {
    let mut volume = labelled(&rt)?;
    bad(&rt, &volume, 34, 33, 8, 33)?;
    bad(&rt, &volume, 33, 32, 8, 32)?;
    spoil(&rt, &mut volume, 32, 31, 32)?;
    lost(&rt, &volume, 8, 32)
}

#[test]
fn wrong_sum(rt: HostRuntime) -> Result<(), Fail> {
    let mut volume = labelled(&rt)?;
    spoil(&rt, &mut volume, 33, 100, 1)?;
    finds(&rt, &volume, FRESH)?;
    bad(&rt, &volume, 34, 32, 9, 32)
}

#[test]
fn short_buffer(rt: HostRuntime) -> Result<(), Fail> {
    let volume = labelled(&rt)?;
    let log = log_of(&volume)?;
    let mut buffer = [0u8; 4095];
    let answer = Chain { log, end: 34 }.read_record(32, &mut buffer);
    refused(&rt, answer, 4, 0)
}
