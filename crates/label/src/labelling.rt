// A label as a sector.
ghost use Rattle.std.specs.Prelude.{◌≡◌};
ghost use Rattle.label.specs.Label.{label_of, label_bytes};

use crate::label::Label;
use codec::fields::{Number, bytes_at};
use encode::fields::{PutNumber, put_bytes};

impl From<&[u8; 512]> for Label {
    ghost from_gives = { λ sector label. label ≡ label_of sector.now };

    // The label that a sector tells; what follows its 32 bytes is not looked at.
    fn from(sector: &[u8; 512]) -> Self {
        Label {
            start: u32::be_at(sector, 0),
            count: u32::be_at(sector, 4),
            window: u32::be_at(sector, 8),
            most: u32::be_at(sector, 12),
            uuid: bytes_at(sector, 16),
        }
    }
}

impl From<Label> for [u8; 512] {
    ghost from_gives = { λ label sector. sector ≡ label_bytes label };

    // The sector of a label: four numbers, then 16 bytes, then zeros.
    fn from(label: Label) -> Self {
        let mut sector = [0; 512];
        label.start.put_be(&mut sector, 0);
        label.count.put_be(&mut sector, 4);
        label.window.put_be(&mut sector, 8);
        label.most.put_be(&mut sector, 12);
        put_bytes(&mut sector, 16, &label.uuid);
        sector
    }
}
