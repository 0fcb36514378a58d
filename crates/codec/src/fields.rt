// Reads numbers in slices of bytes. A byte past the end reads as 0.
ghost use Rattle.std.specs.Prelude.{◌≡◌, ◌+◌, ◌^◌, ◌<◌, ◌≤◌, ℕ, length, slice_index, drop, refl};
ghost use Rattle.codec.specs.Fields.{be, le, part, signed32, signed64, unsigned32, unsigned64};
ghost use Rattle.codec.specs.Signs.{signed32_back, signed64_back};

// A number that stands in bytes.
pub trait Number: Copy {
    // how many bytes it has
    ghost width: { ℕ };

    // the number that these bits are
    ghost of: { ℕ → Self };

    // the bits of a number
    ghost bits: { Self → ℕ };

    // The number at `at`, greatest byte first.
    fn be_at(b: &[u8], at: usize) -> Self
        ensures { result ≡ of (be width b.now at) };

    // The number at `at`, least byte first.
    fn le_at(b: &[u8], at: usize) -> Self
        ensures { result ≡ of (le width b.now at) };

    // the bits that a number was made of are its bits
    ghost bits_back: { (n : ℕ) → n < 256 ^ width → bits (of n) ≡ n };
}

// The bytes from `at` on; none where that is past the end.
fn bytes_from(b: &[u8], at: usize) -> &[u8]
    ensures { result.now ≡ drop at b.now }
{
    b.get(at..).unwrap_or(&[])
}

// The `K` bytes from `at` on.
pub fn bytes_at<const K: usize>(b: &[u8], at: usize) -> [u8; K]
    ensures each { (k : ℕ) → k < K → slice_index result k ≡ slice_index b.now (at + k) }
    ensures whole { at + K ≤ length b.now → result ≡ part at K b.now }
{
    let rest = bytes_from(b, at);
    if let Some((whole, _)) = rest.split_first_chunk() {
        return *whole;
    }
    padded(rest)
}

// Byte `k`; 0 where that is past the end.
fn byte(bytes: &[u8], k: usize) -> u8
    ensures { result ≡ slice_index bytes.now k }
{
    bytes.get(k).copied().unwrap_or(0)
}

// The first `K` bytes, zeros behind the last. One after the other, since a copy of any length takes longer for so few.
// Kept: the place by its number. With `array::from_fn` the clause was not proved.
fn padded<const K: usize>(bytes: &[u8]) -> [u8; K]
    ensures { (k : ℕ) → k < K → slice_index result k ≡ slice_index bytes.now k }
{
    let mut whole = [0; K];
    for k in 0..K {
        whole[k] = byte(bytes, k);
    }
    whole
}

// Kept: a body for each type. What bytes come to is told of each type by itself: one body over a trait of `from_be_bytes` would move these lines into its laws.
impl Number for u16 {
    ghost width = { 2 };

    ghost of = { λ n. n };

    ghost bits = { λ x. x };

    ghost bits_back = { λ n small. refl };

    fn be_at(b: &[u8], at: usize) -> u16 {
        u16::from_be_bytes(bytes_at(b, at))
    }

    fn le_at(b: &[u8], at: usize) -> u16 {
        u16::from_le_bytes(bytes_at(b, at))
    }
}

impl Number for u32 {
    ghost width = { 4 };

    ghost of = { λ n. n };

    ghost bits = { λ x. x };

    ghost bits_back = { λ n small. refl };

    fn be_at(b: &[u8], at: usize) -> u32 {
        u32::from_be_bytes(bytes_at(b, at))
    }

    fn le_at(b: &[u8], at: usize) -> u32 {
        u32::from_le_bytes(bytes_at(b, at))
    }
}

impl Number for u64 {
    ghost width = { 8 };

    ghost of = { λ n. n };

    ghost bits = { λ x. x };

    ghost bits_back = { λ n small. refl };

    fn be_at(b: &[u8], at: usize) -> u64 {
        u64::from_be_bytes(bytes_at(b, at))
    }

    fn le_at(b: &[u8], at: usize) -> u64 {
        u64::from_le_bytes(bytes_at(b, at))
    }
}

impl Number for i32 {
    ghost width = { 4 };

    ghost of = { signed32 };

    ghost bits = { unsigned32 };

    ghost bits_back = { signed32_back };

    fn be_at(b: &[u8], at: usize) -> i32 {
        u32::be_at(b, at).cast_signed()
    }

    fn le_at(b: &[u8], at: usize) -> i32 {
        u32::le_at(b, at).cast_signed()
    }
}

impl Number for i64 {
    ghost width = { 8 };

    ghost of = { signed64 };

    ghost bits = { unsigned64 };

    ghost bits_back = { signed64_back };

    fn be_at(b: &[u8], at: usize) -> i64 {
        u64::be_at(b, at).cast_signed()
    }

    fn le_at(b: &[u8], at: usize) -> i64 {
        u64::le_at(b, at).cast_signed()
    }
}
