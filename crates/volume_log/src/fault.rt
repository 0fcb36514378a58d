// Why a label or a log cannot be read.
ghost use Rattle.std.specs.Prelude.{◌≡◌};
ghost use Rattle.volume_log.specs.Faults.{meaning};
ghost use Rattle.volume_log.specs.declared.cause.LogFault.TheVariants.{Device};

use crate::cause::LogFault;
use device::fault::DeviceFault;

// The device's refusal travels up as it is.
// Kept: each layer has its own enum of causes, a rule of the project, and so its own `From`.
impl From<DeviceFault> for LogFault {
    ghost from_gives = { λ e r. r ≡ Device e };

    fn from(e: DeviceFault) -> LogFault {
        LogFault::Device(e)
    }
}

impl LogFault {
    // The number under which it is told.
    // Kept: a refusal is known by its number in every rule and promise; the enum is what code goes by.
    pub fn number(&self) -> u8
        ensures { result ≡ (meaning self.now).number }
    {
        match self {
            LogFault::Device(fault) => fault.number(),
            LogFault::Label => 1,
            LogFault::Buffer => 4,
            LogFault::Disorder { sector: _ } => 5,
            LogFault::Empty => 6,
            LogFault::Unsound { sector: _ } => 7,
            LogFault::Chain { sector: _ } => 8,
            LogFault::Checksum { sector: _ } => 9,
        }
    }

    // The volume sector that it names, 0 where it names none.
    pub fn sector(&self) -> u64
        ensures { result ≡ (meaning self.now).sector }
    {
        match self {
            LogFault::Device(fault) => fault.sector,
            LogFault::Label | LogFault::Buffer | LogFault::Empty => 0,
            LogFault::Disorder { sector }
            | LogFault::Unsound { sector }
            | LogFault::Chain { sector }
            | LogFault::Checksum { sector } => *sector,
        }
    }
}
