// What a refusal tells: its number, who refuses, and where on the volume.
use std::fmt;

// Who refuses.
#[derive(Clone, Copy, PartialEq, Eq, Debug)]
pub enum Layer {
    Device,
    Record,
    Transaction,
    Item,
    Session,
}

// A refusal: its number from 1 to 20, its layer, and its place as a volume sector and a byte.
// Kept: it is what is told of a cause, and a cause is told by its number; the enums of causes are what code goes by.
#[derive(Clone, Copy, PartialEq, Eq, Debug)]
pub struct Refusal {
    pub number: u8,
    pub layer: Layer,
    pub sector: u64,
    pub byte: u32,
}

impl fmt::Display for Layer {
    fn fmt<W: fmt::Write>(&self, f: &mut fmt::Formatter<W>) -> fmt::Result {
        f.write_str(match self {
            Layer::Device => "device",
            Layer::Record => "record",
            Layer::Transaction => "transaction",
            Layer::Item => "item",
            Layer::Session => "session",
        })
    }
}

// Number, place and layer, as in `2 41 0 by the device`.
impl fmt::Display for Refusal {
    fn fmt<W: fmt::Write>(&self, f: &mut fmt::Formatter<W>) -> fmt::Result {
        write!(
            f,
            "{} {} {} by the {}",
            self.number, self.sector, self.byte, self.layer
        )
    }
}
