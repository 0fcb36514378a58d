// Writes numbers and bytes in slices of bytes. What would fall past the end is not written.
ghost use Rattle.std.specs.Prelude.{◌≡◌};
ghost use Rattle.codec.specs.Fields.{be_bytes, le_bytes, put};

use codec::fields::Number;

// Puts bytes at `at`.
pub fn put_bytes(b: &mut [u8], at: usize, bytes: &[u8])
    ensures { b.new ≡ put b.old at bytes.now }
{
    if at < b.len() {
        let n = bytes.len().min(b.len() - at);
        b[at..at + n].copy_from_slice(&bytes[..n]);
    }
}

// A number that can be put into bytes.
pub trait PutNumber: Number {
    // Puts it at `at`, greatest byte first.
    fn put_be(self, b: &mut [u8], at: usize)
        ensures { b.new ≡ put b.old at (be_bytes Self.width (Self.bits self)) };

    // Puts it at `at`, least byte first.
    fn put_le(self, b: &mut [u8], at: usize)
        ensures { b.new ≡ put b.old at (le_bytes Self.width (Self.bits self)) };
}

// Kept: a body for each type, as of `Number`: one body over a trait of `to_be_bytes` would move these lines into its laws.
impl PutNumber for u16 {
    fn put_be(self, b: &mut [u8], at: usize) {
        put_bytes(b, at, &u16::to_be_bytes(self));
    }

    fn put_le(self, b: &mut [u8], at: usize) {
        put_bytes(b, at, &u16::to_le_bytes(self));
    }
}

impl PutNumber for u32 {
    fn put_be(self, b: &mut [u8], at: usize) {
        put_bytes(b, at, &u32::to_be_bytes(self));
    }

    fn put_le(self, b: &mut [u8], at: usize) {
        put_bytes(b, at, &u32::to_le_bytes(self));
    }
}

impl PutNumber for u64 {
    fn put_be(self, b: &mut [u8], at: usize) {
        put_bytes(b, at, &u64::to_be_bytes(self));
    }

    fn put_le(self, b: &mut [u8], at: usize) {
        put_bytes(b, at, &u64::to_le_bytes(self));
    }
}

impl PutNumber for i32 {
    fn put_be(self, b: &mut [u8], at: usize) {
        u32::put_be(self.cast_unsigned(), b, at);
    }

    fn put_le(self, b: &mut [u8], at: usize) {
        u32::put_le(self.cast_unsigned(), b, at);
    }
}

impl PutNumber for i64 {
    fn put_be(self, b: &mut [u8], at: usize) {
        u64::put_be(self.cast_unsigned(), b, at);
    }

    fn put_le(self, b: &mut [u8], at: usize) {
        u64::put_le(self.cast_unsigned(), b, at);
    }
}
