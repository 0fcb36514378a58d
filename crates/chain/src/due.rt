// The header of a record that is due at a position.
ghost use Rattle.std.specs.Prelude.{◌≡◌, ◌%◌, ◌^◌, ◌<◌, ◌≤◌, length};
ghost use Rattle.record.specs.Record.{header_of, end_of};

use label::geometry::Geometry;
use record::header::RecordHeader;
use stored::saved::unpack;
use stored::sum::checksum;
use volume_log::cause::LogFault;

// A header that is sound where its record is due: its position, its sector, and what the sector tells.
#[derive(Drop)]
pub(crate) struct DueHeader {
    pub position: u64,
    pub sector: [u8; 512],
    pub header: RecordHeader,
    ghost tells: { header ≡ header_of sector },
    ghost whole: { header.length % 512 ≡ 0 },
    ghost most: { header.length ≤ 32768 },
    ghost fits: { end_of header position < 2 ^ 64 },
}

impl DueHeader {
    ghost use Rattle.volume_log.specs.Faults.{outcome};
    ghost use Rattle.chain.specs.Records.{sum_right, sum_answer, restored_data};

    // Whether the checksum is the one that the header tells, by the record's data as stored.
    fn sum_is_right(&self, stored: &[u8]) -> bool
        ensures { result ≡ sum_right self.now.sector stored.now }
    {
        checksum(&self.sector, stored) == self.header.sum
    }

    // Judges the checksum by the record's data as stored, and puts the saved words back.
    pub(crate) fn restore(&self, geometry: Geometry, stored: &mut [u8]) -> Result<(), LogFault>
        requires { length stored.old ≡ self.now.header.length }
        ensures answer { outcome result ≡ sum_answer geometry.label self.now.position self.now.sector stored.old }
        ensures buffer { stored.new ≡ restored_data self.now.sector stored.old }
    {
        if !self.sum_is_right(stored) {
            return Err(LogFault::Checksum {
                sector: geometry.sector_of(self.position),
            });
        }
        unpack(&self.sector, stored);
        Ok(())
    }
}
