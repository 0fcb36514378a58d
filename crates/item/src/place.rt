// Where a region of an item lies in a buffer.
ghost use Rattle.std.specs.Prelude.{◌≡◌};
ghost use Rattle.item.specs.Regions.{region};

#[derive(Clone, Copy, PartialEq, Eq, Debug)]
pub struct Place {
    pub offset: usize,
    pub length: usize,
}

impl Place {
    // The region at the place, cut off at the end of the bytes.
    pub fn region(self, bytes: &[u8]) -> &[u8]
        ensures { result.now ≡ region bytes.now self }
    {
        let rest = bytes.get(self.offset..).unwrap_or(&[]);
        rest.get(..self.length).unwrap_or(rest)
    }
}
