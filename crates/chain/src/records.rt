// The chain of a log, read record by record.
ghost use Rattle.std.specs.Prelude.{◌≡◌, ℕ, ◌^◌, ◌<◌, ◌≤◌, List, length, take, Ok, Err, MatchResult, IfOk};
ghost use Rattle.chain.specs.Records.{due_answer, header_on, left, read_record};
ghost use Rattle.chain.specs.Standing.{Stands};
ghost use Rattle.volume_log.specs.Faults.{meaning, outcome};
ghost use Rattle.model.specs.View.{read_log};
ghost use Rattle.record.specs.Record.{end_of};

use crate::due::DueHeader;
use crate::rows::read_row;
use device::interface::Device;
use record::header::RecordHeader;
use volume_log::cause::LogFault;
use volume_log::headers::{ends_by, sound_header};
use volume_log::log::Log;

// The records of a log up to the position by which the last of them ends.
#[derive_where(Clone, Copy)]
pub struct Chain<'a, D> {
    pub log: Log<'a, D>,
    pub end: u64,
}

impl<'a, D: Device> Chain<'a, D> {
    // The header on the sector of a position, if a record is due there: a header, sound, of a record that ends by the chain's end.
    #[tactic(auto, using(crate::proofs::Heads::due_by), unfolding(crate::proofs::Heads::answer_by))]
    fn header_due(&self, position: u64, sector: &[u8; 512]) -> Result<RecordHeader, LogFault>
        ensures answer { outcome result ≡ due_answer self.now.log.geometry.label self.now.end position sector.now }
        ensures fits { IfOk result (λ header. end_of header position < 2 ^ 64) }
    {
        let geometry = self.log.geometry;
        match sound_header(geometry, position, sector)? {
            Some(header) if ends_by(&header, position, self.end) => Ok(header),
            _ => Err(LogFault::Chain {
                sector: geometry.sector_of(position),
            }),
        }
    }

    // Reads the header that is due at a position, with `room` bytes for its data.
    fn due_header(&self, position: u64, room: usize) -> Result<DueHeader, LogFault>
        ensures found { let on = header_on (D.state self.now.log.device.now) self.now.log.geometry.label self.now.end position room in MatchResult result (λ due. on ≡ Ok due.sector) (λ fault. on ≡ Err (meaning fault)) }
        ensures place { IfOk result (λ due. due.position ≡ position) }
        ensures room { IfOk result (λ due. due.header.length ≤ room) }
    {
        if room < self.log.geometry.label.most as usize {
            return Err(LogFault::Buffer);
        }
        let sector = self.log.read(position)?;
        let header = self.header_due(position, &sector)?;
        Ok(DueHeader {
            position,
            sector,
            header,
        })
    }

    // The steps of reading a record: the header, the data sectors, the checksum and the saved words.
    fn read_at(&self, position: u64, buffer: &mut [u8]) -> Result<RecordHeader, LogFault>
        ensures { left (outcome result) buffer.new ≡ read_record (D.state self.now.log.device.now) self.now.log.geometry.label self.now.end position buffer.old }
    {
        let due = self.due_header(position, buffer.len())?;
        let stored = &mut buffer[..due.header.length as usize];
        read_row(&self.log, position + 1, stored)?;
        due.restore(self.log.geometry, stored)?;
        Ok(due.header)
    }

    // Reads the record that is due at `position`: its header is the answer, and its data, with the saved words put back, is at the
    // front of the buffer. A record that is refused after its header was judged leaves its data as stored there, as far as it was
    // read. `read` says all of it as one equation; `stands` says that in a log that can be read it is the record of the chain.
    pub fn read_record(&self, position: u64, buffer: &mut [u8]) -> Result<RecordHeader, LogFault>
        ensures read { left (outcome result) buffer.new ≡ read_record (D.state self.now.log.device.now) self.now.log.geometry.label self.now.end position buffer.old }
        ensures stands { (sectors : List (List ℕ)) → read_log (D.state self.now.log.device.now) self.now.log.geometry.label ≡ Ok sectors → self.now.log.geometry.label.most ≤ length buffer.old → Stands self.now.log.geometry.label sectors self.now.end position buffer.old (left (outcome result) buffer.new) }
    {
        self.read_at(position, buffer)
    }
}

// The data of a record that was read: the front of the buffer, as long as its header tells.
// Kept: a length beside the buffer, since `read_record` speaks of all of the buffer, which a slice lent out of it would hide.
pub fn data_of<'a>(header: &RecordHeader, buffer: &'a [u8]) -> &'a [u8]
    ensures { result.now ≡ take header.now.length buffer.now }
{
    buffer.get(..header.length as usize).unwrap_or(buffer)
}
