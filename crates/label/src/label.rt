// The label of a volume, as sector 0 tells it.
use std::fmt;

// The log is `count` sectors from `start` on. At most `window` sectors are in flight, and a record has at most `most` bytes of
// data. Any numbers; see `Geometry` for a label whose numbers keep their limits.
#[derive(Clone, Copy, PartialEq, Eq, Debug)]
pub struct Label {
    pub start: u32,
    pub count: u32,
    pub window: u32,
    pub most: u32,
    pub uuid: [u8; 16],
}

// What it says of the log; not the uuid.
impl fmt::Display for Label {
    fn fmt<W: fmt::Write>(&self, f: &mut fmt::Formatter<W>) -> fmt::Result {
        write!(
            f,
            "log at {}, {} sectors, window {}, records of at most {} bytes",
            self.start, self.count, self.window, self.most
        )
    }
}
