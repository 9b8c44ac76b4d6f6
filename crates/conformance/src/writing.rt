// A writer, a snapshot of it and a replay of that, each by its own calls.
ghost use Rattle.std.specs.Prelude.{◌≡◌, ◌*◌, length, sum_by, IfOk};
ghost use Rattle.std.specs.Int.NonZero.{non_zero_usize_get};
ghost use Rattle.page.specs.Geometry.{AreInOrder};
ghost use Rattle.paged_read.specs.Batch.{ranges_of};

use crate::fixed::Fixed;
use crate::noted::Noted;
use crate::words::{out_of_memory, unreadable};
use cache::CacheRef;
use disk::{Blob, Call, Error, IoBuf, IoBufs, MemBlob, ReadOptions};
use page::Sum;
use paged::{Recovery, Replay, Sealed, Writer, recover};
use session::Reply;
use std::alloc::Global;
use std::io;
use std::io::Write;
use std::marker::Model;
use std::num::{NonZeroU16, NonZeroUsize};

/// By whose calls is read.
#[derive(Clone, Copy)]
pub enum By {
    /// The writer's.
    Writer,
    /// The snapshot's.
    Snapshot,
}

/// A blob in memory with its cache, and its writer; a snapshot of the writer, and a replay of the
/// snapshot, if there are such. They are let go at the next call that may write. It is handed out in
/// a box.
pub struct Writing<H: Sum> {
    alloc: Global,
    capacity: usize,
    page_size: NonZeroU16,
    blob: Noted,
    cache: CacheRef,
    writer: Option<Writer<Noted, H>>,
    snapshot: Option<Sealed<Noted, H>>,
    replay: Option<Replay<Noted, H>>,
    by: By,
    // Those that are given to the calls that take options.
    options: ReadOptions,
}

// By hand, so that an owner lets one go by one call: of a derived drop, a proof follows each field
// at each exit.
impl<H: Sum> Drop for Writing<H> {
    fn drop(self) {
        let Writing {
            alloc: _,
            capacity: _,
            page_size: _,
            blob: _,
            cache: _,
            writer: _,
            snapshot: _,
            replay: _,
            by: _,
            options: _,
        } = self;
    }
}

impl<H: Sum> Model for Writing<H> {
    ghost use Rattle.disk.specs.History.{life_of};
    ghost use Rattle.conformance.specs.Writing.{AreReadable};

    ghost Value = { Unit {0} };

    ghost view = { λ s. tt };

    ghost invariant = { λ s.
        AreReadable H.sum_of s.writer s.snapshot s.replay s.cache (life_of s.blob.inner) };
}

// Room for so many bytes, with bytes that no case has.
fn room(alloc: Global, len: usize) -> Result<Vec<u8>, Error>
    ensures { IfOk result (λ buf. length buf.items ≡ len) }
{
    let mut buf = Vec::new(alloc);
    buf.resize(len, 0xee)?;
    Ok(buf)
}

// What a read answers that filled this buffer.
fn whole(read: Result<(), Error>, buf: Vec<u8>) -> Result<Reply, Error> {
    read?;
    Ok(Reply::Bytes(buf))
}

fn joined(alloc: Global, read: Result<IoBufs, Error>) -> Result<Reply, Error> {
    let buf = read?.coalesce()?;
    Ok(Reply::Bytes(Vec::from_slice(alloc, buf.as_ref())?))
}

// Bytes of which the read says that there are so many.
fn counted(read: Result<(Vec<u8>, usize), Error>) -> Result<Reply, Error> {
    let (bytes, count) = read?;
    Ok(if_held(count == bytes.len(), bytes))
}

fn served(read: Result<usize, Error>, buf: Vec<u8>) -> Result<Reply, Error> {
    Ok(Reply::Served(read?, buf))
}

fn if_held(held: bool, bytes: Vec<u8>) -> Reply {
    if held {
        Reply::Bytes(bytes)
    } else {
        Reply::Nothing
    }
}

impl<H: Sum> Writing<H> {
    /// A writer that is opened over a blob of these bytes, all durable.
    pub fn new(
        alloc: Global,
        page_size: NonZeroU16,
        capacity: usize,
        pages: NonZeroUsize,
        bytes: &[u8],
    ) -> io::Result<Box<Writing<H>>> {
        match Writing::opened(alloc, page_size, capacity, pages, bytes) {
            Ok(writing) => Ok(Box::new(alloc, writing)?),
            Err(Error::OutOfMemory) => Err(out_of_memory()),
            Err(_) => Err(unreadable()),
        }
    }

    fn opened(
        alloc: Global,
        page_size: NonZeroU16,
        capacity: usize,
        pages: NonZeroUsize,
        bytes: &[u8],
    ) -> Result<Self, Error> {
        let mut blob = Noted::new(alloc, MemBlob::from_bytes(alloc, bytes)?)?;
        let mut cache = CacheRef::new(alloc, page_size, pages)?;
        let size = blob.len();
        let writer = Writer::<Noted, H>::new(alloc, &mut blob, size, capacity, &mut cache)?;
        Ok(Writing {
            alloc,
            capacity,
            page_size,
            blob,
            cache,
            writer: Some(writer),
            snapshot: None,
            replay: None,
            by: By::Writer,
            options: ReadOptions::default(),
        })
    }

    /// From here on is read by these calls.
    pub fn read_by(&mut self, by: By) {
        self.by = by;
    }

    /// From here on calls that take options are given these.
    pub fn set_options(&mut self, options: ReadOptions) {
        self.options = options;
    }

    /// Appends bytes. After an error the writer is gone.
    pub fn append(&mut self, bytes: &[u8]) -> Result<Reply, Error> {
        self.snapshot = None;
        self.replay = None;
        let Some(writer) = self.writer.take() else {
            return Ok(Reply::Closed);
        };
        let (writer, at) = writer.append(&mut self.blob, &mut self.cache, bytes)?;
        self.writer = Some(writer);
        Ok(Reply::At(at))
    }

    /// Appends bytes that are handed over. After an error the writer is gone.
    pub fn append_owned(&mut self, bytes: &[u8]) -> Result<Reply, Error> {
        let bytes = IoBuf::copy_from_slice(self.alloc, bytes)?;
        self.snapshot = None;
        self.replay = None;
        let Some(writer) = self.writer.take() else {
            return Ok(Reply::Closed);
        };
        let (writer, at) = writer.append_owned(&mut self.blob, &mut self.cache, bytes)?;
        self.writer = Some(writer);
        Ok(Reply::At(at))
    }

    // Appends a value of N bytes, if the buffer has room for it.
    fn try_value<const N: usize>(&mut self, bytes: &[u8]) -> Result<Reply, Error> {
        let Some(value) = Fixed::<N>::new(Vec::from_slice(self.alloc, bytes)?) else {
            return Ok(Reply::Nothing);
        };
        let Some(writer) = &mut self.writer else {
            return Ok(Reply::Closed);
        };
        match writer.try_append_value(&value)? {
            Some(at) => Ok(Reply::At(at)),
            None => Ok(Reply::Nothing),
        }
    }

    /// Appends a value of one of the sizes that have types here, if the buffer has room for it.
    pub fn try_append_value(&mut self, bytes: &[u8]) -> Result<Reply, Error> {
        match bytes.len() {
            2 => self.try_value::<2>(bytes),
            2042 => self.try_value::<2042>(bytes),
            _ => Ok(Reply::Nothing),
        }
    }

    /// Makes all that was appended durable. After an error the writer is gone.
    pub fn sync(&mut self) -> Result<Reply, Error> {
        self.snapshot = None;
        self.replay = None;
        let Some(writer) = self.writer.take() else {
            return Ok(Reply::Closed);
        };
        self.writer = Some(writer.sync(&mut self.blob, &mut self.cache)?);
        Ok(Reply::Done)
    }

    /// Makes a snapshot, in place of an earlier one. After an error the writer is gone.
    pub fn snapshot(&mut self) -> Result<Reply, Error> {
        self.snapshot = None;
        self.replay = None;
        let Some(writer) = self.writer.take() else {
            return Ok(Reply::Closed);
        };
        let (writer, snapshot) = writer.snapshot(&mut self.blob, &mut self.cache)?;
        let size = snapshot.size();
        self.writer = Some(writer);
        self.snapshot = Some(snapshot);
        Ok(Reply::Length(size))
    }

    /// Makes a snapshot, if nothing has to be written for it.
    pub fn try_snapshot(&mut self) -> Result<Reply, Error> {
        let Some(writer) = &self.writer else {
            return Ok(Reply::Closed);
        };
        match writer.try_snapshot()? {
            Some(snapshot) => {
                let size = snapshot.size();
                self.snapshot = Some(snapshot);
                Ok(Reply::Length(size))
            }
            None => Ok(Reply::Nothing),
        }
    }

    /// Puts a copy of the snapshot in its place.
    pub fn copy_snapshot(&mut self) -> Result<Reply, Error> {
        let Some(snapshot) = &self.snapshot else {
            return Ok(Reply::NoSuch);
        };
        let copy = snapshot.try_clone()?;
        self.snapshot = Some(copy);
        Ok(Reply::Done)
    }

    /// The bytes of a range.
    pub fn read_into(&mut self, offset: u64, len: usize) -> Result<Reply, Error> {
        let mut buf = room(self.alloc, len)?;
        let (blob, cache) = (&mut self.blob, &mut self.cache);
        if let By::Snapshot = self.by {
            let Some(snapshot) = &self.snapshot else {
                return Ok(Reply::NoSuch);
            };
            let read = snapshot.read_into(blob, cache, &mut buf, offset);
            return whole(read, buf);
        }
        let Some(writer) = &self.writer else {
            return Ok(Reply::NoSuch);
        };
        let read = writer.read_into(blob, cache, &mut buf, offset);
        whole(read, buf)
    }

    /// The bytes of a range, in buffers of the call's own.
    pub fn read_at(&mut self, offset: u64, len: usize) -> Result<Reply, Error> {
        let alloc = self.alloc;
        let (blob, cache) = (&mut self.blob, &mut self.cache);
        if let By::Snapshot = self.by {
            let Some(snapshot) = &self.snapshot else {
                return Ok(Reply::NoSuch);
            };
            let read = snapshot.read_at(blob, cache, offset, len);
            return joined(alloc, read);
        }
        let Some(writer) = &self.writer else {
            return Ok(Reply::NoSuch);
        };
        let read = writer.read_at(blob, cache, offset, len);
        joined(alloc, read)
    }

    /// As many bytes from an offset on as there are, at most so many, in place of two others.
    pub fn read_up_to(&mut self, offset: u64, len: usize) -> Result<Reply, Error> {
        let old = room(self.alloc, 2)?;
        let (blob, cache) = (&mut self.blob, &mut self.cache);
        if let By::Snapshot = self.by {
            let Some(snapshot) = &self.snapshot else {
                return Ok(Reply::NoSuch);
            };
            let read = snapshot.read_up_to(blob, cache, offset, len, old);
            return counted(read);
        }
        let Some(writer) = &self.writer else {
            return Ok(Reply::NoSuch);
        };
        let read = writer.read_up_to(blob, cache, offset, len, old);
        counted(read)
    }

    /// The bytes of a range, if that needs no device.
    pub fn try_read(&self, offset: u64, len: usize) -> Result<Reply, Error> {
        let mut buf = room(self.alloc, len)?;
        if let By::Snapshot = self.by {
            let Some(snapshot) = &self.snapshot else {
                return Ok(Reply::NoSuch);
            };
            let read = snapshot.try_read_sync_into(&self.cache, &mut buf, offset);
            return Ok(if_held(read, buf));
        }
        let Some(writer) = &self.writer else {
            return Ok(Reply::NoSuch);
        };
        let read = writer.try_read_sync_into(&self.cache, &mut buf, offset);
        Ok(if_held(read, buf))
    }

    /// The bytes of ranges that have `len` bytes together, and how many of them needed no device.
    pub fn read_ranges(&mut self, ranges: &[(u64, usize)], len: usize) -> Result<Reply, Error>
        requires in_order { AreInOrder ranges.now }
        requires filled { len ≡ sum_by (λ range. range.1) ranges.now }
    {
        let mut buf = room(self.alloc, len)?;
        let (blob, cache) = (&mut self.blob, &mut self.cache);
        if let By::Snapshot = self.by {
            let Some(snapshot) = &self.snapshot else {
                return Ok(Reply::NoSuch);
            };
            let read = snapshot.read_ranges_into(blob, cache, &mut buf, ranges);
            return served(read, buf);
        }
        let Some(writer) = &self.writer else {
            return Ok(Reply::NoSuch);
        };
        let read = writer.read_ranges_into(blob, cache, &mut buf, ranges);
        served(read, buf)
    }

    /// The bytes of ranges of one length, which have `len` bytes together, and how many of them
    /// needed no device.
    pub fn read_many(
        &mut self,
        offsets: &[u64],
        each: NonZeroUsize,
        len: usize,
    ) -> Result<Reply, Error>
        requires in_order { AreInOrder (ranges_of (non_zero_usize_get each) offsets.now) }
        requires filled { len ≡ length offsets.now * non_zero_usize_get each }
    {
        let mut buf = room(self.alloc, len)?;
        let (blob, cache) = (&mut self.blob, &mut self.cache);
        if let By::Snapshot = self.by {
            let Some(snapshot) = &self.snapshot else {
                return Ok(Reply::NoSuch);
            };
            let read = snapshot.read_many_into(blob, cache, &mut buf, offsets, each);
            return served(read, buf);
        }
        let Some(writer) = &self.writer else {
            return Ok(Reply::NoSuch);
        };
        let read = writer.read_many_into(blob, cache, &mut buf, offsets, each);
        served(read, buf)
    }

    /// Which of the ranges, which have `len` bytes together, would need the device.
    pub fn try_ranges(&self, ranges: &[(u64, usize)], len: usize) -> Result<Reply, Error>
        requires in_order { AreInOrder ranges.now }
        requires filled { len ≡ sum_by (λ range. range.1) ranges.now }
    {
        let mut buf = room(self.alloc, len)?;
        if let By::Snapshot = self.by {
            let Some(snapshot) = &self.snapshot else {
                return Ok(Reply::NoSuch);
            };
            let read = snapshot.try_read_ranges_sync_into(&self.cache, &mut buf, ranges);
            return Ok(Reply::Missed(read?));
        }
        let Some(writer) = &self.writer else {
            return Ok(Reply::NoSuch);
        };
        let read = writer.try_read_ranges_sync_into(&self.cache, &mut buf, ranges);
        Ok(Reply::Missed(read?))
    }

    /// Which of the ranges of one length, which have `len` bytes together, would need the device.
    pub fn try_many(&self, offsets: &[u64], each: NonZeroUsize, len: usize) -> Result<Reply, Error>
        requires in_order { AreInOrder (ranges_of (non_zero_usize_get each) offsets.now) }
        requires filled { len ≡ length offsets.now * non_zero_usize_get each }
    {
        let mut buf = room(self.alloc, len)?;
        if let By::Snapshot = self.by {
            let Some(snapshot) = &self.snapshot else {
                return Ok(Reply::NoSuch);
            };
            let read = snapshot.try_read_many_sync_into(&self.cache, &mut buf, offsets, each);
            return Ok(Reply::Missed(read?));
        }
        let Some(writer) = &self.writer else {
            return Ok(Reply::NoSuch);
        };
        let read = writer.try_read_many_sync_into(&self.cache, &mut buf, offsets, each);
        Ok(Reply::Missed(read?))
    }

    /// How many bytes a scan of the flushed pages counts, where the first `proven` count as there.
    pub fn scan(&mut self, proven: u64, by: NonZeroUsize) -> Result<Reply, Error> {
        let Some(writer) = &self.writer else {
            return Ok(Reply::Closed);
        };
        let len = writer.recoverable_prefix_len(&mut self.blob, proven, by, self.options)?;
        Ok(Reply::Length(len))
    }

    /// Begins a replay of the snapshot, in place of an earlier one.
    pub fn replay(&mut self, by: NonZeroUsize) -> Result<Reply, Error> {
        let Some(snapshot) = &self.snapshot else {
            return Ok(Reply::NoSuch);
        };
        let replay = snapshot.replay(by, self.options)?;
        self.replay = Some(replay);
        Ok(Reply::Done)
    }

    /// Has the replay read on until so many bytes are at hand.
    pub fn ensure(&mut self, count: usize) -> Result<Reply, Error> {
        let Some(replay) = &mut self.replay else {
            return Ok(Reply::NoSuch);
        };
        Ok(Reply::Answer(replay.ensure(&mut self.blob, count)?))
    }

    /// Takes the next bytes that the replay has at hand, at most so many.
    pub fn take(&mut self, count: usize) -> Result<Reply, Error> {
        let Some(replay) = &mut self.replay else {
            return Ok(Reply::NoSuch);
        };
        let count = count.min(replay.remaining());
        let bytes = replay.copy_to_bytes(count)?;
        Ok(Reply::Bytes(Vec::from_slice(self.alloc, bytes.as_ref())?))
    }

    /// Whether an `ensure` of the replay answered that all that is left is at hand.
    pub fn is_exhausted(&self) -> Reply {
        match &self.replay {
            Some(replay) => Reply::Answer(replay.is_exhausted()),
            None => Reply::NoSuch,
        }
    }

    /// Moves the replay to an offset.
    pub fn seek(&mut self, offset: u64) -> Result<Reply, Error> {
        let Some(replay) = &mut self.replay else {
            return Ok(Reply::NoSuch);
        };
        replay.seek_to(offset)?;
        Ok(Reply::Done)
    }

    /// The bytes of a range of the blob, as one that nobody opened is read.
    pub fn read_range(&mut self, offset: u64, len: usize) -> Result<Reply, Error> {
        self.writer = None;
        self.snapshot = None;
        self.replay = None;
        let (alloc, size, options) = (self.alloc, self.page_size, self.options);
        let bufs = Writer::<Noted, H>::read_range(
            alloc,
            &mut self.blob,
            size,
            offset,
            len,
            options,
        )?;
        joined(alloc, Ok(bufs))
    }

    /// The last bytes of the blob, as one that nobody opened is read.
    pub fn read_tail(&mut self, len: usize) -> Result<Reply, Error> {
        self.writer = None;
        self.snapshot = None;
        self.replay = None;
        let (alloc, page_size, options) = (self.alloc, self.page_size, self.options);
        let size = self.blob.len();
        let (_, bufs) = Writer::<Noted, H>::read_tail(
            alloc,
            &mut self.blob,
            size,
            page_size,
            len,
            options,
        )?;
        joined(alloc, Ok(bufs))
    }

    /// Recovers the blob, by reads of so many bytes. No writer is left.
    pub fn recover(&mut self, by: NonZeroUsize) -> Result<Reply, Error> {
        self.writer = None;
        self.snapshot = None;
        self.replay = None;
        let size = self.blob.len();
        let recovery = recover::<Noted, H>(
            self.alloc,
            &mut self.blob,
            size,
            self.capacity,
            &mut self.cache,
            by,
        )?;
        Ok(Reply::Length(recovery.size()))
    }

    /// Opens the blob as it is, and cuts it to so many logical bytes. No writer is left.
    pub fn cut(&mut self, size: u64) -> Result<Reply, Error> {
        self.writer = None;
        self.snapshot = None;
        self.replay = None;
        let len = self.blob.len();
        let recovery = Recovery::<Noted, H>::open(
            self.alloc,
            &mut self.blob,
            len,
            self.capacity,
            &mut self.cache,
        )?;
        let recovery = recovery.truncate(&mut self.blob, &mut self.cache, size)?;
        Ok(Reply::Length(recovery.size()))
    }

    /// Makes the nth device call from now on fail. With n = 0 it is the next one, as with 1.
    pub fn fail_at(&mut self, n: u64) {
        self.blob.inner.fail_at(n.max(1));
    }

    /// Writes the options of the device calls since this was last asked.
    pub fn say_options(&mut self, said: &mut Vec<u8>) -> io::Result<()> {
        self.blob.say_options(said)
    }

    /// The device calls.
    pub fn device_calls(&self) -> &[Call] {
        self.blob.inner.calls()
    }
}
