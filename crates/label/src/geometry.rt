// A label within its limits.
ghost use Rattle.std.specs.Prelude.{◌≡◌, ◌*◌, ◌+◌, ◌/◌, ◌%◌, ◌^◌, ◌<◌, ◌≤◌};

use crate::label::Label;

// A label whose numbers keep the limits that do not depend on the device.
#[derive(Clone, Copy, PartialEq, Eq, Debug)]
pub struct Geometry {
    pub label: Label,
    ghost after_label: { 1 ≤ label.start },
    ghost least: { 16 ≤ label.count },
    ghost largest: { label.count ≤ 2097152 },
    ghost half: { 2 * label.window ≤ label.count },
    ghost room: { 1 + label.most / 512 ≤ label.window },
    ghost data_least: { 512 ≤ label.most },
    ghost data_largest: { label.most ≤ 32768 },
    ghost whole: { label.most % 512 ≡ 0 },
}

impl Geometry {
    ghost use Rattle.label.specs.Position.{volume_sector};

    // The first sector of the log on the volume.
    pub fn start(&self) -> u64
        ensures value { result ≡ self.now.label.start }
        ensures small { result < 2 ^ 32 }
    {
        self.label.start as u64
    }

    // How many sectors the log has.
    pub fn count(&self) -> u64
        ensures { result ≡ self.now.label.count }
    {
        self.label.count as u64
    }

    // How many sectors may be in flight.
    pub fn window(&self) -> u64
        ensures { result ≡ self.now.label.window }
    {
        self.label.window as u64
    }

    // The sector of the volume on which a position stands.
    pub fn sector_of(&self, position: u64) -> u64
        ensures { result ≡ volume_sector self.now.label position }
    {
        self.start() + position % self.count()
    }
}
