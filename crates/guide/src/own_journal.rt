// A journal: records, one after another, on a device and under a checksum function of one's own.
ghost use Rattle.std.specs.Prelude.{◌≡◌, length, IfOk};
ghost use Rattle.cache.specs.Pages.{IsFresh};
ghost use Rattle.paged.specs.Ready.{IsReady};

use crate::calls::{CAPACITY, new_cache};
use crate::device::Metered;
use cache::CacheRef;
use disk::{Blob, Error, IoBuf, MemBlob};
use page::Sum;
use paged::{Recovery, recover};
use std::alloc::Global;
use std::marker::Model;
use std::num::NonZeroUsize;

/// The device.
pub type Device = Metered<MemBlob>;

/// Why a call of the journal was refused.
#[derive(Clone, Copy, Debug, PartialEq, Eq, thiserror::Error)]
pub enum JournalError {
    /// There is no writer, because a call that took it was refused: recover the journal.
    #[error("there is no writer: recover the journal")]
    NoWriter,
    /// The record has more than 65,535 bytes. The journal is as it was.
    #[error("the record has more than 65,535 bytes")]
    RecordTooLong,
    /// The layer below refused the call.
    #[error("{0}")]
    Refused(#[from] Error),
}

/// A record, and the offset after it.
#[derive(Drop)]
pub struct Record {
    pub bytes: IoBuf,
    pub end: u64,
}

/// A journal: its blob, the cache, and the writer, if there is one. After an error of a call that
/// takes the writer there is none: recover the journal then.
///
/// A record is two bytes of its length, the higher one first, and its bytes.
pub struct Journal<H: Sum> {
    alloc: Global,
    blob: Device,
    cache: CacheRef,
    writer: Option<Recovery<Device, H>>,
}

// By hand, so that an owner lets one go by one call: of a derived drop, a proof follows each field
// at each exit.
impl<H: Sum> Drop for Journal<H> {
    fn drop(self) {
        let Journal {
            alloc: _,
            blob: _,
            cache: _,
            writer: _,
        } = self;
    }
}

impl<H: Sum> Model for Journal<H> {
    ghost use Rattle.disk.specs.History.{life_of};
    ghost use Rattle.guide.specs.Ready.{IsReadyOrNone};

    ghost Value = { Unit {0} };

    ghost view = { λ journal. tt };

    ghost invariant = { λ journal.
        IsReadyOrNone H.sum_of journal.writer journal.cache (life_of journal.blob.inner) };
}

// A record as it stands in the blob.
fn frame_of(alloc: Global, len: u16, record: &[u8]) -> Result<Vec<u8>, Error> {
    let mut framed = Vec::new(alloc);
    framed.extend_from_slice(&len.to_be_bytes())?;
    framed.extend_from_slice(record)?;
    Ok(framed)
}

// A blob of so many bytes, recovered.
fn recovered<B: Blob, H: Sum>(
    alloc: Global,
    blob: &mut B,
    size: u64,
    cache: &mut CacheRef,
) -> Result<Recovery<B, H>, Error>
    requires length { size ≡ length (B.life blob.old).present.readable }
    requires fresh { IsFresh cache.old }
    ensures ready { IfOk result (λ w. IsReady H.sum_of w cache.new (B.life blob.new)) }
    ensures fresh { IsFresh cache.new }
{
    recover::<B, H>(alloc, blob, size, CAPACITY, cache, NonZeroUsize::MIN)
}

// A blob in recovery, cut to its first bytes.
fn cut_to<B: Blob, H: Sum>(
    recovery: Recovery<B, H>,
    blob: &mut B,
    cache: &mut CacheRef,
    size: u64,
) -> Result<Recovery<B, H>, Error>
    requires ready { IsReady H.sum_of recovery cache.old (B.life blob.old) }
    ensures ready { IfOk result (λ w. IsReady H.sum_of w cache.new (B.life blob.new)) }
    ensures fresh { IsFresh cache.new }
{
    recovery.truncate(blob, cache, size)
}

impl<H: Sum> Journal<H> {
    /// A journal of this blob, recovered.
    pub fn open(alloc: Global, blob: MemBlob) -> Result<Self, JournalError> {
        let mut journal = Journal {
            alloc,
            blob: Metered::new(blob),
            cache: new_cache(alloc)?,
            writer: None,
        };
        journal.recover()?;
        Ok(journal)
    }

    /// Recovers the blob as it is, after a crash or at once after a call that was refused, and
    /// cuts off a record that is half there.
    pub fn recover(&mut self) -> Result<(), JournalError> {
        self.recover_blob()?;
        let end = self.whole_end()?;
        if end < self.size() {
            self.cut(end)?;
        }
        Ok(())
    }

    fn recover_blob(&mut self) -> Result<(), JournalError> {
        self.writer = None;
        let size = self.blob.inner.len();
        let writer = recovered(self.alloc, &mut self.blob, size, &mut self.cache)?;
        self.writer = Some(writer);
        Ok(())
    }

    // The offset after the last whole record.
    fn whole_end(&mut self) -> Result<u64, JournalError> {
        let mut offset = 0;
        for _ in 0..self.size() {
            match self.read(offset)? {
                Some(record) => offset = record.end,
                None => break,
            }
        }
        Ok(offset)
    }

    fn cut(&mut self, size: u64) -> Result<(), JournalError> {
        let Some(writer) = self.writer.take() else {
            return Err(JournalError::NoWriter);
        };
        let writer = cut_to(writer, &mut self.blob, &mut self.cache, size)?;
        self.writer = Some(writer);
        Ok(())
    }

    /// How many bytes the records have, with their lengths; 0 if there is no writer.
    pub fn size(&self) -> u64 {
        match &self.writer {
            Some(writer) => writer.size(),
            None => 0,
        }
    }

    /// Appends a record of at most 65,535 bytes, and answers its offset.
    pub fn append(&mut self, record: &[u8]) -> Result<u64, JournalError> {
        let Ok(len) = u16::try_from(record.len()) else {
            return Err(JournalError::RecordTooLong);
        };
        let framed = frame_of(self.alloc, len, record)?;
        self.append_bytes(&framed)
    }

    fn append_bytes(&mut self, bytes: &[u8]) -> Result<u64, JournalError> {
        let Some(writer) = self.writer.take() else {
            return Err(JournalError::NoWriter);
        };
        let (writer, offset) = writer.append(&mut self.blob, &mut self.cache, bytes)?;
        self.writer = Some(writer);
        Ok(offset)
    }

    /// Makes all records durable that were appended.
    pub fn commit(&mut self) -> Result<(), JournalError> {
        let Some(writer) = self.writer.take() else {
            return Err(JournalError::NoWriter);
        };
        self.writer = Some(writer.sync(&mut self.blob, &mut self.cache)?);
        Ok(())
    }

    /// The record that begins at an offset; `None` if no whole one begins there.
    pub fn read(&mut self, offset: u64) -> Result<Option<Record>, JournalError> {
        let size = self.size();
        let body = offset.saturating_add(2);
        if size < body {
            return Ok(None);
        }
        let mut head = [0; 2];
        self.read_into(&mut head, offset)?;
        let len = u16::from_be_bytes(head);
        let end = body.saturating_add(u64::from(len));
        if size < end {
            return Ok(None);
        }
        let bytes = self.read_bytes(body, usize::from(len))?;
        Ok(Some(Record { bytes, end }))
    }

    fn read_into(&mut self, buf: &mut [u8], offset: u64) -> Result<(), JournalError> {
        match &self.writer {
            Some(writer) => {
                writer.read_into(&mut self.blob, &mut self.cache, buf, offset)?;
                Ok(())
            }
            None => Err(JournalError::NoWriter),
        }
    }

    fn read_bytes(&mut self, offset: u64, len: usize) -> Result<IoBuf, JournalError> {
        match &self.writer {
            Some(writer) => {
                let read = writer.read_at(&mut self.blob, &mut self.cache, offset, len)?;
                Ok(read.coalesce()?)
            }
            None => Err(JournalError::NoWriter),
        }
    }

    /// The device.
    pub fn device(&self) -> &Device {
        &self.blob
    }

    /// Lets the nth call of the device from now on fail.
    pub fn fail_at(&mut self, n: u64) {
        self.blob.inner.fail_at(n.max(1));
    }

    /// Crashes the device, which keeps those unsynced bytes whose flag is true. The writer is gone.
    pub fn crash(&mut self, keep: &[bool]) -> Result<(), JournalError> {
        self.writer = None;
        self.blob.inner.crash(keep)?;
        Ok(())
    }
}
