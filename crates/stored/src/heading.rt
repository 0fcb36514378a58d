// A record header as a sector.
ghost use Rattle.std.specs.Prelude.{◌≡◌, ◌++◌};
ghost use Rattle.codec.specs.Fields.{zeros};
ghost use Rattle.record.specs.Record.{header_at, header_front, header_bytes, sealed};

use crate::sum::checksum;
use encode::fields::{PutNumber, put_bytes};
use label::label::Label;
use record::header::{FORMAT, MAGIC, RecordHeader, VERSION};

// The header, still without its checksum, of a record with `sectors` data sectors: its own place and that of its tail as pairs
// (cycle, log sector), the log sector of the record before and the number of ops.
pub fn header_at(
    label: Label,
    own: (u32, u32),
    tail: (u32, u32),
    previous: u32,
    ops: u32,
    sectors: u8,
) -> RecordHeader
    ensures { result ≡ header_at label own tail previous ops sectors }
{
    let uuid = label.uuid;
    RecordHeader {
        cycle: own.0,
        version: VERSION,
        length: 512 * u32::from(sectors),
        own,
        tail,
        sum: 0,
        previous,
        ops,
        format: FORMAT,
        uuid,
        most: label.most,
    }
}

// The sector of a header, with the checksum that it and the stored data sectors have.
pub fn sealed(header: &RecordHeader, saved: &[u8; 256], stored: &[u8]) -> [u8; 512]
    ensures { result ≡ sealed header.now saved.now stored.now }
{
    let sum = checksum(&header_bytes(header, saved), stored);
    header_bytes(&RecordHeader { sum, ..*header }, saved)
}

// The sector of a header with its 64 saved words.
pub fn header_bytes(header: &RecordHeader, saved: &[u8; 256]) -> [u8; 512]
    ensures { result ≡ header_bytes header.now saved.now }
{
    let mut b = [0; 512];
    put_front(&mut b, header);
    put_back(&mut b, header, saved);
    b
}

// The fields before the saved words.
fn put_front(b: &mut [u8; 512], header: &RecordHeader)
    requires { b.old ≡ zeros 512 }
    ensures { b.new ≡ header_front header.now ++ zeros 468 }
{
    MAGIC.put_be(b, 0);
    header.cycle.put_be(b, 4);
    header.version.put_be(b, 8);
    header.length.put_be(b, 12);
    header.own.0.put_be(b, 16);
    header.own.1.put_be(b, 20);
    header.tail.0.put_be(b, 24);
    header.tail.1.put_be(b, 28);
    header.sum.put_le(b, 32);
    header.previous.put_be(b, 36);
    header.ops.put_be(b, 40);
}

// The saved words and the fields behind them.
fn put_back(b: &mut [u8; 512], header: &RecordHeader, saved: &[u8; 256])
    requires { b.old ≡ header_front header.now ++ zeros 468 }
    ensures { b.new ≡ header_bytes header.now saved.now }
{
    put_bytes(b, 44, saved);
    header.format.put_be(b, 300);
    put_bytes(b, 304, &header.uuid);
    header.most.put_be(b, 320);
}
