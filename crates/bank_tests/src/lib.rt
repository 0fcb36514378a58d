// The bank of the two built kinds and a bank of one kind, on items in the middle of a buffer.
#![tactic(auto)]

#[cfg(test)]
mod tests {
    use bank::bank::ItemBank;
    use bank::built::built_bank;
    use bank::one::One;
    use buffer::kind::Buffers;
    use item::class::Class;
    use item::item::Item;
    use item::place::Place;
    use item::region::region_at;
    use keys::patch::PatchKey;

    const BUFFER: u16 = 0x123C;

    const OPEN: u16 = 0x1236;

    const CLOSE: u16 = 0x1237;

    // A buffer of sector 8, length 1, map 0x0000000D, with a region of bytes 7 and one of bytes 9.
    const TWO_RUNS: [Place; 3] = [
        Place {
            offset: 4,
            length: 24,
        },
        Place {
            offset: 28,
            length: 128,
        },
        Place {
            offset: 160,
            length: 256,
        },
    ];

    fn two_runs() -> [u8; 420] {
        let mut bytes = [0; 420];
        bytes[4..28].copy_from_slice(
            b"\x3c\x12\x03\0\0\0\x01\0\x08\0\0\0\0\0\0\0\x01\0\0\0\x0d\0\0\0",
        );
        bytes[28..156].copy_from_slice(&[7; 128]);
        bytes[160..416].copy_from_slice(&[9; 256]);
        bytes
    }

    // An intent with one extent and the id 0x0177, of a type with the least byte `number`.
    const INTENT: [Place; 1] = [Place {
        offset: 1,
        length: 32,
    }];

    fn intent(number: u8) -> [u8; 40] {
        let mut bytes = [0; 40];
        bytes[1..11].copy_from_slice(&[number, 0x12, 1, 0, 1, 0, 0, 0, 0x77, 0x01]);
        bytes
    }

    const SECTOR_8: PatchKey = PatchKey {
        sector: 8,
        length: 1,
    };

    #[test]
    fn built_lays_a_buffer(rt: HostRuntime) {
        let bank = built_bank();
        let bytes = &two_runs();
        let item = Item {
            bytes,
            places: &TWO_RUNS,
        };
        let one_region_short = Item {
            bytes,
            places: &TWO_RUNS[0..2],
        };
        assert_eq!(rt; bank.classify(BUFFER, item), Some(Class::Patch(SECTOR_8)));
        assert_eq!(rt;
            bank.classify(BUFFER, one_region_short),
            Some(Class::Malformed)
        );
        assert!(rt; bank.covers(BUFFER, item, 0));
        assert!(rt; !bank.covers(BUFFER, item, 1));
        let mut sector = [1; 512];
        bank.lay(BUFFER, item, 0, &mut sector);
        assert!(rt; sector[0] == 7 && sector[127] == 7);
        assert!(rt; sector[128] == 1 && sector[255] == 1);
        assert!(rt; sector[256] == 9 && sector[511] == 9);
    }

    #[test]
    fn built_opens_and_closes(rt: HostRuntime) {
        let bank = built_bank();
        let open = Item {
            bytes: &intent(0x36),
            places: &INTENT,
        };
        let close = Item {
            bytes: &intent(0x37),
            places: &INTENT,
        };
        let no_region = Item {
            places: &[],
            ..open
        };
        assert_eq!(rt; bank.classify(OPEN, open), Some(Class::Open(0x0177)));
        assert_eq!(rt; bank.classify(CLOSE, close), Some(Class::Close(0x0177)));
        assert_eq!(rt; bank.classify(OPEN, no_region), Some(Class::Malformed));
    }

    #[test]
    fn one_kind_has_no_other(rt: HostRuntime) {
        let bank = One { kind: Buffers };
        let patch = Item {
            bytes: &two_runs(),
            places: &TWO_RUNS,
        };
        let open = Item {
            bytes: &intent(0x36),
            places: &INTENT,
        };
        assert_eq!(rt; bank.classify(BUFFER, patch), Some(Class::Patch(SECTOR_8)));
        assert_eq!(rt; bank.classify(OPEN, open), None);
        assert!(rt; bank.has(BUFFER) && !bank.has(OPEN) && !bank.has(CLOSE));
    }

    // The first four bytes, by a place that is gone when they are handed out.
    fn first_four(bytes: &[u8]) -> &[u8] {
        let places = [Place {
            offset: 0,
            length: 4,
        }];
        region_at(bytes, &places, 0)
    }

    #[test]
    fn a_region_outlives_its_places(rt: HostRuntime) {
        assert_eq!(rt; first_four(b"region").len(), 4);
        assert_eq!(rt; first_four(b"end").len(), 3);
    }
}
