// The causes of a refusal.
use device::fault::DeviceFault;
use thiserror::Error;

// A refusal of the device, unaltered, or a fault of the label or the log, with the volume sector where it is found.
#[derive(Clone, Copy, PartialEq, Eq, Debug, Error)]
#[error("refused {} at sector {}", self.number(), self.sector())]
pub enum LogFault {
    Device(DeviceFault),
    // a field of the label breaks its limit
    Label,
    // the buffer is too short for a record
    Buffer,
    // a log sector is not in order
    Disorder { sector: u64 },
    // there is no newest record
    Empty,
    // a header is not sound
    Unsound { sector: u64 },
    // the chain is broken
    Chain { sector: u64 },
    // a checksum is wrong
    #[error("record at sector {sector}: checksum wrong, refused {}", self.number())]
    Checksum { sector: u64 },
}
