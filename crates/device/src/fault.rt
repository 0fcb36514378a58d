// Why a device refuses, and at which sector.
ghost use Rattle.std.specs.Prelude.{◌≡◌};
ghost use Rattle.device.specs.Faults.{cause_number};

use thiserror::Error;

// No action is left, the sector cannot be read, or it lies beyond the device's end: each with the number under which it is told.
#[derive(Clone, Copy, PartialEq, Eq, Debug, Error)]
pub enum Cause {
    #[error("no action is left")]
    Spent = 2,
    #[error("the sector cannot be read")]
    Unreadable = 3,
    #[error("the sector lies beyond the end")]
    Beyond = 13,
}

#[derive(Clone, Copy, PartialEq, Eq, Debug, Error)]
#[error("{cause}: sector {sector}")]
pub struct DeviceFault {
    pub cause: Cause,
    pub sector: u64,
}

impl Cause {
    // The refusal for this cause at `sector`.
    pub fn at(self, sector: u64) -> DeviceFault
        ensures { result ≡ record { cause = self; sector = sector } }
    {
        DeviceFault {
            cause: self,
            sector,
        }
    }
}

impl DeviceFault {
    // The number under which a refusal is told.
    pub fn number(&self) -> u8
        ensures { result ≡ cause_number self.now.cause }
    {
        self.cause as u8
    }
}
