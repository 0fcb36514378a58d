// A log whose sectors were all read, looked through: whether its sectors are in order, its head, its newest record, its end
// and its tail.
ghost use Rattle.std.specs.Prelude.{◌≡◌, ◌+◌, ◌^◌, ◌<◌, ◌≤◌, Ok, Err, MatchResult};
ghost use Rattle.device.specs.Steps.{reads};
ghost use Rattle.volume_log.specs.Faults.{outcome};
ghost use Rattle.volume_log.specs.Sectors.{log_of, Readable, greatest_on, sector_in_order};
ghost use Rattle.volume_log.specs.Seeking.{ends_by, found_on};
ghost use Rattle.model.specs.View.{at, held, coherent_from, first_free, head, newest};

use crate::cause::LogFault;
use crate::found::Found;
use crate::headers::{end_of, look_at};
use crate::log::Log;
use device::fault::DeviceFault;
use device::interface::Device;
use label::position::join;
use record::header::RecordHeader;
use record::heading::{held_cycle, held_position};

// A log that can be read, and the greatest position that it holds.
#[derive(Drop)]
pub(crate) struct Scanned<'a, D: Device> {
    log: Log<'a, D>,
    greatest: u64,
    ghost readable: { Readable (D.state log.device.now) log.geometry.label },
    ghost is: { greatest ≡ greatest_on (D.state log.device.now) log.geometry.label },
    ghost least: { log.geometry.label.count ≤ greatest + 1 },
    ghost small: { greatest < 2 ^ 53 },
}

impl<'a, D: Device> Scanned<'a, D> {
    // Reads all sectors of the log, ascending, up to the first that cannot be read.
    pub(crate) fn of(log: Log<'a, D>) -> Result<Self, DeviceFault>
        ensures { MatchResult result (λ s. s.log ≡ log.entry) (λ e. reads (D.state log.entry.device.now) log.entry.geometry.label.start log.entry.geometry.label.count ≡ Err e) }
    {
        let mut greatest: u64 = 0;
        for i in 0..log.geometry.label.count {
            let sector = log.read(i as u64)?;
            // Kept: `held_position` is the same number, but its clause hides the cycle's 32 bits, by which it fits; `grind` found no other way.
            greatest = greatest.max(join(log.geometry, (held_cycle(&sector), i)));
        }
        Ok(Scanned { log, greatest })
    }

    // The bytes of the sector on which a position stands.
    fn sector_at(&self, position: u64) -> Result<[u8; 512], DeviceFault>
        ensures { result ≡ Ok (at self.now.log.geometry.label (log_of (D.state self.now.log.device.now) self.now.log.geometry.label) position) }
    {
        self.log.read(position)
    }

    // Log sector `i` is in order beside the greatest position: it holds what is due, or lags a turn behind in the window.
    fn in_order(&self, i: u32, sector: &[u8; 512]) -> bool
        requires { i < self.now.log.geometry.label.count }
        ensures { result ≡ sector_in_order self.now.log.geometry.label self.now.greatest i sector.now }
    {
        let geometry = self.log.geometry;
        let count = geometry.count();
        let first = i as u64;
        let due = first + count * ((self.greatest - first) / count);
        let held = held_position(geometry, i, sector);
        let lags = held + count == due && self.greatest < due + geometry.window();
        (held == due || lags) && held_cycle(sector) < 0x8000_0000
    }

    // Each log sector is in order; refused at the first that is not.
    fn coherent(&self) -> Result<(), LogFault>
        ensures { outcome result ≡ coherent_from self.now.log.geometry.label (log_of (D.state self.now.log.device.now) self.now.log.geometry.label) self.now.greatest 0 self.now.log.geometry.label.count }
    {
        for i in 0..self.log.geometry.label.count {
            if !self.in_order(i, &self.sector_at(i as u64)?) {
                let sector = self.log.geometry.sector_of(i as u64);
                return Err(LogFault::Disorder { sector });
            }
        }
        Ok(())
    }

    // Whether a position is held.
    fn holds(&self, position: u64) -> Result<bool, DeviceFault>
        ensures { result ≡ Ok (held self.now.log.geometry.label (log_of (D.state self.now.log.device.now) self.now.log.geometry.label) position) }
    {
        let geometry = self.log.geometry;
        let sector = self.sector_at(position)?;
        let index = (position % geometry.count()) as u32;
        Ok(held_position(geometry, index, &sector) == position)
    }

    // The first of `n` positions from `first` on that is not held, or the one after them.
    fn first_free(&self, first: u64, n: u64) -> Result<u64, DeviceFault>
        requires { first + n < 2 ^ 63 }
        ensures { result ≡ Ok (first_free self.now.log.geometry.label (log_of (D.state self.now.log.device.now) self.now.log.geometry.label) first n) }
    {
        for position in first..first + n {
            if !self.holds(position)? {
                return Ok(position);
            }
        }
        Ok(first + n)
    }

    // The head: the least position of the window that is not held, or the one after the greatest.
    fn head(&self) -> Result<u64, DeviceFault>
        ensures { result ≡ Ok (head self.now.log.geometry.label (log_of (D.state self.now.log.device.now) self.now.log.geometry.label) self.now.greatest) }
    {
        let window = self.log.geometry.window();
        self.first_free(self.greatest + 1 - window, window)
    }

    // The newest record: the first header back from the head whose record ends by the head.
    fn newest(&self, head: u64) -> Result<u64, LogFault>
        requires high { head ≤ self.now.greatest + 1 }
        requires low { self.now.greatest + 1 ≤ head + self.now.log.geometry.label.count }
        ensures { outcome result ≡ newest self.now.log.geometry.label (log_of (D.state self.now.log.device.now) self.now.log.geometry.label) self.now.greatest head }
    {
        let low = self.greatest + 1 - self.log.geometry.count();
        for position in (low..head).rev() {
            if look_at(
                self.log.geometry,
                head,
                position,
                &self.sector_at(position)?,
            )? {
                return Ok(position);
            }
        }
        Err(LogFault::Empty)
    }

    // The end and the tail, by the newest record's header; refused where the tail is out of range.
    fn ended(&self, head: u64, newest: u64, header: &RecordHeader) -> Result<Found, LogFault>
        requires { newest < 2 ^ 63 }
        ensures { outcome result ≡ ends_by self.now.log.geometry.label self.now.greatest head newest header.now }
    {
        let geometry = self.log.geometry;
        let end = end_of(header, newest);
        let tail = join(geometry, header.tail);
        let low = (self.greatest + 1).saturating_sub(geometry.count());
        if header.tail.1 >= geometry.label.count || tail < low || end <= tail {
            return Err(LogFault::Chain {
                sector: geometry.sector_of(newest),
            });
        }
        Ok(Found {
            greatest: self.greatest,
            head,
            newest,
            end,
            tail,
        })
    }

    // All of it in turn.
    pub(crate) fn find(&self) -> Result<Found, LogFault>
        ensures { outcome result ≡ found_on (D.state self.now.log.device.now) self.now.log.geometry.label }
    {
        self.coherent()?;
        let head = self.head()?;
        let newest = self.newest(head)?;
        self.ended(head, newest, &RecordHeader::from(&self.sector_at(newest)?))
    }
}
