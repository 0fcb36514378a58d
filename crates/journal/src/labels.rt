// Label: the call that makes a volume.
ghost use Rattle.std.specs.Prelude.{◌≡◌, [], ◌∷◌, Ok};
ghost use Rattle.device.specs.Actions.{force, run};
ghost use Rattle.journal.specs.Laws.{Labelled};
ghost use Rattle.faults.specs.Refusals.{outcome};
ghost use Rattle.model.specs.Calls.{first_writes, label_actions, label_call};

use crate::records::clearing_record;
use device::actions::{write_range, write_zeros};
use device::fault::DeviceFault;
use device::interface::Device;
use faults::cause::Fault;
use label::geometry::Geometry;
use label::label::Label;
use label::limits::geometry_of;

// What a record with none before it names in place of that one's log sector.
const NONE_BEFORE: u32 = 0xFFFF_FFFF;

// Writes the label, a log of zeros and a clearing record, and forces the device; refused with nothing written where a field
// breaks its limit, and at the first action that the device refuses. `call` says all of it as one equation; `made` says in
// words what an accepted label leaves on each sector.
pub fn label_volume<D: Device>(device: &mut D, label: Label) -> Result<(), Fault>
    ensures call { label_call (D.state device.old) label ≡ record { answer = outcome result; device = D.state device.new; session = tt } }
    ensures made { result ≡ Ok tt → Labelled label (D.state device.old) (D.state device.new) }
    ensures kept { D.kept device.old device.new }
{
    let size = device.size();
    let geometry = geometry_of(label, size).ok_or(Fault::Label)?;
    Ok(write_label(device, geometry)?)
}

// The actions of label.
fn write_label<D: Device>(device: &mut D, geometry: Geometry) -> Result<(), DeviceFault>
    ensures ran { run (label_actions geometry.label) (D.state device.old) ≡ record { answer = result; after = D.state device.new } }
    ensures kept { D.kept device.old device.new }
{
    device.write(0, &<[u8; 512]>::from(geometry.label))?;
    write_zeros(device, geometry.start(), geometry.count())?;
    write_first(device, geometry)?;
    settle(device)
}

// The last action: all that was written is forced.
fn settle<D: Device>(device: &mut D) -> Result<(), DeviceFault>
    ensures ran { run (force ∷ []) (D.state device.old) ≡ record { answer = result; after = D.state device.new } }
    ensures kept { D.kept device.old device.new }
{
    device.force()
}

// The first record of a log: a clearing record at the first position of cycle 1, with no record before it.
fn write_first<D: Device>(device: &mut D, geometry: Geometry) -> Result<(), DeviceFault>
    ensures ran { run (first_writes geometry.label) (D.state device.old) ≡ record { answer = result; after = D.state device.new } }
    ensures kept { D.kept device.old device.new }
{
    let record = clearing_record(geometry, (1, 0), NONE_BEFORE);
    write_range(device, geometry.start(), &record)
}
