// The causes of a refusal.
use device::fault::DeviceFault;
use thiserror::Error;

// A refusal of the device, unaltered, or a cause of the journal's own.
#[derive(Clone, Copy, PartialEq, Eq, Debug, Error)]
pub enum Fault {
    #[error(transparent)]
    Device(DeviceFault),
    #[error("a field of the label breaks its limit")]
    Label,
}
