// A story in print: a volume in memory is labelled, and its label and log are read back.
#![tactic(auto)]

mod reading;
mod telling;

use crate::reading::tell_log;
use crate::telling::tell_uuid;
use device::interface::Device;
use faults::refusal::Refusal;
use journal::labels::label_volume;
use label::label::Label;
use memory::cell::blank_cells;
use memory::ram::Memory;
use std::io;

// How many sectors the volume has.
const SECTORS: usize = 64;

// Sectors 32 to 63 are the log, `window` of them may be in flight, and a record has at most 4096 bytes of data.
// Kept: shared by programs and tests it would need a crate of its own for one constant.
fn label_with(window: u32) -> Label {
    Label {
        start: 32,
        count: 32,
        window,
        most: 4096,
        uuid: [0, 1, 2, 3, 4, 5, 6, 7, 8, 9, 10, 11, 12, 13, 14, 15],
    }
}

// Labels a volume of zeros that takes `actions` actions, and tells how it went and what the log then holds.
fn story(rt: &HostRuntime, window: u32, actions: u64) -> io::Result<()> {
    let cells = blank_cells(rt.alloc(), SECTORS)?;
    match Memory::new(cells, actions, false) {
        Ok(mut volume) => tell_labelling(rt, &mut volume, label_with(window)),
        Err(_) => rt.println("no such device"),
    }
}

fn tell_labelling(rt: &HostRuntime, volume: &mut Memory, label: Label) -> io::Result<()> {
    tell_volume(rt, volume)?;
    println!(rt; "labelling it: {label}")?;
    tell_uuid(rt, &label)?;
    let actions = volume.actions_left();
    match label_volume(volume, label) {
        Ok(()) => tell_labelled(rt, volume, actions),
        Err(fault) => {
            println!(rt; "  refused {}", Refusal::from(fault))?;
            tell_spent(rt, volume, actions)
        }
    }
}

fn tell_volume(rt: &HostRuntime, volume: &Memory) -> io::Result<()> {
    println!(rt;
        "a volume in memory: {} sectors, {} actions left",
        volume.size(),
        volume.actions_left()
    )
}

fn tell_labelled(rt: &HostRuntime, volume: &Memory, actions: u64) -> io::Result<()> {
    rt.println("  accepted")?;
    tell_spent(rt, volume, actions)?;
    tell_log(rt, volume)
}

fn tell_spent(rt: &HostRuntime, volume: &Memory, actions: u64) -> io::Result<()> {
    let left = volume.actions_left();
    println!(rt;
        "  {} actions spent, {left} left, settled: {}",
        actions.saturating_sub(left),
        volume.settled()
    )
}

fn main(rt: HostRuntime) -> io::Result<()> {
    story(&rt, 16, 1000)?;
    rt.println("\na window of more than half of the log:")?;
    story(&rt, 17, 1000)?;
    rt.println("\npower fails after ten actions:")?;
    story(&rt, 16, 10)
}
