// The map of a buffer.
ghost use Rattle.std.specs.Prelude.{◌≡◌, ◌-◌, ◌*◌, ◌<◌, ◌≤◌, ◌^◌, drop};
ghost use Rattle.item.specs.Buffer.{map_bit, map_bits, none_set, buffer_length};
ghost use Rattle.buffer.specs.Runs.{FirstBit};

use codec::fields::Number;

// A first region, and how many bits of its map stand for chunks of the range.
#[derive(Debug, Clone, Copy, PartialEq, Eq)]
pub(crate) struct Map<'a> {
    pub(crate) head: &'a [u8],
    pub(crate) bits: usize,
    // far more than 4 for each sector of a length of 16 bits
    ghost few: { bits < 2 ^ 20 },
}

impl<'a> Map<'a> {
    // The map of a first region, with 4 bits for each sector of the length.
    pub(crate) fn of(head: &'a [u8]) -> Map<'a>
        ensures head { result.head.now ≡ head.now }
        ensures bits { result.bits ≡ 4 * buffer_length head.now }
    {
        Map {
            head,
            bits: 4 * usize::from(u16::le_at(head, 6)),
        }
    }

    // Bit b, least bit first; none is set past the region's end.
    pub(crate) fn bit(&self, b: usize) -> bool
        ensures { result ≡ map_bit self.now.head.now b }
    {
        let byte = self.head.get(20 + b / 8).copied().unwrap_or(0);
        (byte >> (b % 8)) % 2 == 1
    }

    // The first bit from b on that is as wanted, or the number of bits.
    pub(crate) fn first(&self, wanted: bool, b: usize) -> usize
        requires { b ≤ self.now.bits }
        ensures { FirstBit wanted self.now.head.now self.now.bits b result }
    {
        (b..self.bits)
            .find(|&k| self.bit(k) == wanted)
            .unwrap_or(self.bits)
    }

    // Whether no bit from n to m is set.
    pub(crate) fn none_set(&self, n: usize, m: usize) -> bool
        ensures between { result ≡ none_set (map_bits self.now.head.now n (m - n)) }
        ensures beyond { result ≡ none_set (drop n (map_bits self.now.head.now 0 m)) }
    {
        !(n..m).any(|b| self.bit(b))
    }
}
