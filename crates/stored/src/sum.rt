// The checksum of a record.
ghost use Rattle.std.specs.Prelude.{◌≡◌, ◌++◌};
ghost use Rattle.codec.specs.Fields.{zeros};
ghost use Rattle.crc.specs.Crc.{crc32c};
ghost use Rattle.record.specs.Record.{checksum};

use crc::running::Crc32c;

// CRC-32C over the first 328 bytes of the header, with its sum as zeros, and the data sectors as they are stored.
pub fn checksum(header: &[u8; 512], stored: &[u8]) -> u32
    ensures { result ≡ checksum header.now stored.now }
{
    sum_around(&header[0..32], &header[36..328], stored)
}

// CRC-32C over `before`, four zeros in place of the sum, `after` and `stored`.
fn sum_around(before: &[u8], after: &[u8], stored: &[u8]) -> u32
    ensures { result ≡ crc32c (before.now ++ (zeros 4 ++ (after.now ++ stored.now))) }
{
    let mut sum = Crc32c::new();
    sum.update(before);
    sum.update(&[0u8; 4]);
    sum.update(after);
    sum.update(stored);
    sum.finish()
}
