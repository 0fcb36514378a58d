// Records that the journal writes of itself.
ghost use Rattle.std.specs.Prelude.{◌≡◌, ◌<◌};
ghost use Rattle.label.specs.Position.{position};
ghost use Rattle.record.specs.Record.{padded};
ghost use Rattle.model.specs.Calls.{clearing_op, clearing};

use encode::fields::{PutNumber, put_bytes};
use label::geometry::Geometry;
use stored::short::short_record;

// The data of a clearing record: one op of number 0, with no effect, then zeros.
fn clearing_data() -> [u8; 512]
    ensures { result ≡ padded clearing_op }
{
    let mut bytes = [0; 512];
    8u32.put_be(&mut bytes, 4);
    put_bytes(&mut bytes, 8, &[0xAA, 0x20, 0, 0, 0x6E, 0x55]);
    bytes
}

// A clearing record at `place`, its header first: its tail is its own position.
pub(crate) fn clearing_record(
    geometry: Geometry,
    place: (u32, u32),
    previous: u32,
) -> [[u8; 512]; 2]
    requires { place.1 < geometry.label.count }
    ensures { result ≡ clearing geometry.label (position geometry.label place.0 place.1) previous }
{
    short_record(geometry, place, place, previous, 1, clearing_data())
}
