// A checksum that is carried on over several slices.
ghost use Rattle.std.specs.Prelude.{◌≡◌, bit_xor};
ghost use Rattle.crc.specs.Crc.{crc_of};

use crate::sum::{ONES, update};

#[derive(Clone, Copy, PartialEq, Eq, Debug)]
pub struct Crc32c {
    pub state: u32,
}

impl Crc32c {
    pub fn new() -> Self
        ensures { result.state ≡ 0xFFFFFFFF }
    {
        Crc32c { state: ONES }
    }

    // Takes the next bytes.
    pub fn update(&mut self, bytes: &[u8])
        ensures { self.new.state ≡ crc_of self.old.state bytes.now }
    {
        self.state = update(self.state, bytes);
    }

    // The checksum of all bytes so far.
    pub fn finish(&self) -> u32
        ensures { result ≡ bit_xor self.now.state 0xFFFFFFFF }
    {
        self.state ^ ONES
    }
}

impl Default for Crc32c {
    ghost is_default = { λ sum. sum.state ≡ 0xFFFFFFFF };

    fn default() -> Self {
        Crc32c::new()
    }
}
