// The laws of this crate's definitions.
ghost use Rattle.std.specs.Prelude.{◌≡◌};
ghost use Rattle.record.specs.Laws.{RecordLaws};

// What is written is read back: headers and packed data; and a checksum does not depend on the sum in its header.
pub fn record_laws() -> u8
    ensures laws { RecordLaws }
    ensures answer { result ≡ 0 }
{
    0
}
