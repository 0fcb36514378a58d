// Why a call of the journal is refused.
ghost use Rattle.std.specs.Prelude.{◌≡◌};
ghost use Rattle.faults.specs.Refusals.{refusal_of};
ghost use Rattle.faults.specs.declared.cause.Fault.TheVariants.{Device};

use crate::cause::Fault;
use crate::refusal::{Layer, Refusal};
use device::fault::DeviceFault;

// The device's refusal travels up as it is.
// Kept: each layer has its own enum of causes, a rule of the project, and so its own `From`.
impl From<DeviceFault> for Fault {
    ghost from_gives = { λ e r. r ≡ Device e };

    fn from(e: DeviceFault) -> Fault {
        Fault::Device(e)
    }
}

// What a cause tells: its number, layer and place.
impl From<Fault> for Refusal {
    ghost from_gives = { λ f r. r ≡ refusal_of f };

    fn from(fault: Fault) -> Refusal {
        match fault {
            Fault::Device(fault) => Refusal {
                number: fault.number(),
                layer: Layer::Device,
                sector: fault.sector,
                byte: 0,
            },
            Fault::Label => Refusal {
                number: 1,
                layer: Layer::Session,
                sector: 0,
                byte: 0,
            },
        }
    }
}
