// The laws of checksums, in the contract of a function.
ghost use Rattle.std.specs.Prelude.{◌≡◌, ◌++◌};
ghost use Rattle.crc.specs.Crc.{crc32c};
ghost use Rattle.crc.specs.Laws.{CrcLaws};

use crate::running::Crc32c;

// The checksum of two slices, the one behind the other.
pub fn crc_laws(a: &[u8], b: &[u8]) -> u32
    ensures laws { CrcLaws }
    ensures joined { result ≡ crc32c (a.now ++ b.now) }
{
    let mut sum = Crc32c::new();
    sum.update(a);
    sum.update(b);
    sum.finish()
}
