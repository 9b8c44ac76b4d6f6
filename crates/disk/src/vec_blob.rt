// A blob in memory that keeps its bytes and nothing else.
ghost use Rattle.std.specs.Prelude.{◌≡◌, ◌≤◌, ◌<◌, ◌+◌, ◌^◌, ◌++◌, [], length, take, drop};
ghost use Rattle.std.specs.Prelude.{OnOk, OnErr, IsOk, IsOkUnless, vec_capacity, true, false};
ghost use Rattle.std.specs.List.{concat};
ghost use Rattle.disk.specs.declared.action.Action.TheVariants as actions;
ghost use Rattle.disk.specs.Disk.{DeviceReadGoes, DeviceReadManyGoes, WriteGoes, ResizeGoes};
ghost use Rattle.disk.specs.Disk.{SyncGoes, StartReadGoes, StartGoes, WaitStartedGoes};
ghost use Rattle.disk.specs.History.{life_of, begun};
ghost use Rattle.disk.specs.Past.{begun_history, history_with};
ghost use Rattle.disk.specs.StartedRead.{answer_of};
ghost use Rattle.disk.specs.VecBlob.{Tells, TellsStart, TellsWait, HasRoom, Reserves};

use crate::action::{grow, put};
use crate::past::Past;
use crate::ranges::{copy_in_order, copy_ranges};
use crate::{Blob, Error, IoBuf, IoBufs, ReadOptions, StartedRead, StartedSync, WriteOptions};
use std::alloc::{AllocError, Global};
use std::marker::Model;
use std::snapshot::Snapshot;

/// A blob in memory, for whoever wants no more than its bytes. The device of a `VecBlob` never
/// fails before a call of [`stop`](VecBlob::stop), and the blob can't crash; [`crate::MemBlob`] can
/// do both.
///
/// Its life, which contracts speak of, is ghost data: nothing of it is kept at run time. So the
/// blob takes as much memory as its bytes however often it is called, and at most twice that where
/// it grew. A write goes in place.
#[derive(Drop)]
pub struct VecBlob {
    bytes: Vec<u8>,
    // How many syncs were started.
    starts: u64,
    stopped: bool,
    past: Snapshot<Past>,
}

impl Model for VecBlob {
    ghost use Rattle.std.specs.Prelude.{vec_capacity};
    ghost use Rattle.disk.specs.History.{life_of};
    ghost use Rattle.disk.specs.VecBlob.{VecState, IsPlain};

    ghost Value = { VecState };

    ghost view = { λ b. record {
      history = b.past.value;
      room = vec_capacity b.bytes;
      stopped = b.stopped;
    } };

    ghost invariant = { λ b.
        IsPlain (life_of b.past.value).present b.bytes.items b.starts b.stopped };
}

impl VecBlob {
    /// An empty blob.
    pub fn new(alloc: Global) -> Self
        ensures begins { result.history ≡ begun_history [] }
        ensures life { life_of result.history ≡ begun [] [] }
        ensures stopped { result.stopped ≡ false }
    {
        Self::from_vec(Vec::new(alloc))
    }

    /// A blob of these bytes, all of them durable. They aren't copied.
    pub fn from_vec(bytes: Vec<u8>) -> Self
        ensures begins { result.history ≡ begun_history bytes.items }
        ensures life { life_of result.history ≡ begun bytes.items [] }
        ensures stopped { result.stopped ≡ false }
    {
        let past = Past::begun(&bytes);
        VecBlob {
            bytes,
            starts: 0,
            stopped: false,
            past,
        }
    }

    /// What a read of all bytes would give.
    pub fn bytes(&self) -> &[u8]
        ensures { result.now ≡ (life_of self.now.history).present.readable }
    {
        &self.bytes
    }

    /// From now on the device fails at each call, as one that broke down: a write answers
    /// `WriteFailed`, and so on. A start of a sync still answers `Ok`, and the wait for that sync
    /// fails. A call that would answer `BlobInsufficientLength`, `OffsetOverflow` or `OutOfMemory`
    /// still does, as no device is asked for it.
    pub fn stop(&mut self)
        ensures history { self.new.history ≡ self.old.history }
        ensures room { self.new.room ≡ self.old.room }
        ensures stopped { self.new.stopped ≡ true }
    {
        self.stopped = true;
    }

    /// Whether the blob was stopped.
    pub fn is_stopped(&self) -> bool
        ensures { result ≡ self.now.stopped }
    {
        self.stopped
    }

    /// Makes room for a write of `len` bytes at `offset`, or for a resize to `offset` bytes where
    /// `len` is 0. After `Ok` such a call doesn't fail before the device is asked. `OffsetOverflow`
    /// where the range passes the greatest offset, `OutOfMemory` only where the range doesn't. An
    /// error changes nothing.
    pub fn reserve(&mut self, offset: u64, len: usize) -> Result<(), Error>
        ensures { Reserves offset len self.old self.new result }
    {
        let Some(end) = offset.checked_add(len as u64) else {
            return Err(Error::OffsetOverflow);
        };
        let more = (end as usize).saturating_sub(self.bytes.len());
        self.bytes.try_reserve(more)?;
        Ok(())
    }

    // Starts a read of several ranges, and answers what the started read is to keep.
    fn start_ranges(&mut self, alloc: Global, ranges: &[(u64, usize)]) -> Result<Vec<IoBuf>, Error>
        ensures goes { let old = life_of self.old.history in let new = life_of self.new.history in
            StartReadGoes ranges.now old new (answer_of result) }
        ensures tells { Tells (actions.StartReadMany ranges.now) self.old self.new result }
        ensures stopped { self.new.stopped ≡ self.old.stopped }
    {
        let bufs = copy_in_order(alloc, &self.bytes, ranges)?;
        self.past = Past::start_read_many(&self.past, ranges, self.stopped);
        if self.stopped {
            return Err(Error::ReadFailed);
        }
        Ok(bufs)
    }
}

// Writes new bytes at an offset among the old ones: over the old bytes that stand there, and then
// after the old end. Where there is room for all, it answers Ok.
fn put_over(bytes: &mut Vec<u8>, offset: usize, new: &[u8]) -> Result<(), AllocError>
    requires { offset ≤ length bytes.old.items }
    ensures ok { let old = bytes.old.items in OnOk result
        (bytes.new.items ≡ take offset old ++ new.now ++ drop (offset + length new.now) old) }
    ensures room { offset + length new.now ≤ vec_capacity bytes.old → IsOk result }
    ensures capacity { vec_capacity bytes.old ≤ vec_capacity bytes.new }
{
    let (over, after) = new.split_at(new.len().min(bytes.len() - offset));
    put(bytes, offset, over);
    bytes.extend_from_slice(after)
}

// Writes buffers, one after another, at an offset among other bytes.
fn put_all(bytes: &mut Vec<u8>, offset: usize, bufs: &IoBufs) -> Result<(), AllocError>
    requires among { offset ≤ length bytes.old.items }
    requires small { offset + length (concat bufs.now) < 2 ^ 64 }
    ensures ok { let new = concat bufs.now in let old = bytes.old.items in OnOk result
        (bytes.new.items ≡ take offset old ++ new ++ drop (offset + length new) old) }
    ensures room { offset + length (concat bufs.now) ≤ vec_capacity bytes.old → IsOk result }
{
    let mut at = offset;
    for buf in bufs.as_slice() {
        put_over(bytes, at, buf.as_ref())?;
        at += buf.len();
    }
    Ok(())
}

impl Blob for VecBlob {
    ghost use Rattle.disk.specs.Lives.{life_reads, life_covers};

    ghost life = { λ b. life_of b.history };

    fn len(&self) -> u64 {
        self.bytes.len() as u64
    }

    fn read_at(
        &mut self,
        alloc: Global,
        offset: u64,
        len: usize,
        _options: ReadOptions,
    ) -> Result<IoBuf, Error>
        ensures goes { let old = life_of self.old.history in let new = life_of self.new.history in
            DeviceReadGoes offset len old new result }
        ensures tells { Tells (actions.Read offset len) self.old self.new result }
        ensures stopped { self.new.stopped ≡ self.old.stopped }
    {
        let bytes = IoBuf::copy_range(alloc, &self.bytes, offset, len)?;
        self.past = Past::read(&self.past, offset, len, self.stopped);
        if self.stopped {
            return Err(Error::ReadFailed);
        }
        Ok(bytes)
    }

    fn read_many(
        &mut self,
        alloc: Global,
        ranges: &[(u64, usize)],
        _options: ReadOptions,
        out: &mut Vec<(usize, IoBuf)>,
    ) -> Result<(), Error>
        ensures goes { let old = life_of self.old.history in let new = life_of self.new.history in
            DeviceReadManyGoes ranges.now old new out.new.items result }
        ensures tells { Tells (actions.ReadMany ranges.now) self.old self.new result }
        ensures stopped { self.new.stopped ≡ self.old.stopped }
    {
        copy_ranges(alloc, &self.bytes, ranges, out)?;
        self.past = Past::read_many(&self.past, ranges, self.stopped);
        if self.stopped {
            return Err(Error::ReadFailed);
        }
        Ok(())
    }

    fn start_read_many(
        &mut self,
        alloc: Global,
        ranges: &[(u64, usize)],
        _options: ReadOptions,
    ) -> StartedRead
        ensures goes { let old = life_of self.old.history in let new = life_of self.new.history in
            StartReadGoes ranges.now old new result }
        ensures tells { Tells (actions.StartReadMany ranges.now) self.old self.new result }
        ensures stopped { self.new.stopped ≡ self.old.stopped }
    {
        StartedRead::kept(self.start_ranges(alloc, ranges))
    }

    fn write_at(&mut self, offset: u64, bufs: &IoBufs, options: WriteOptions) -> Result<(), Error>
        ensures goes { let old = life_of self.old.history in let new = life_of self.new.history in
            WriteGoes offset (concat bufs.now) options.sync old new result }
        ensures tells { let action = actions.Write offset (concat bufs.now) options.sync in
            Tells action self.old self.new result }
        ensures stopped { self.new.stopped ≡ self.old.stopped }
        ensures asked { let bytes = concat bufs.now in
            let action = actions.Write offset bytes options.sync in
            HasRoom offset (length bytes) self.old
            → self.new.history ≡ history_with action self.old.stopped self.old.history }
    {
        self.reserve(offset, bufs.len())?;
        if self.stopped {
            self.past = Past::write(&self.past, offset, bufs, options.sync, true);
            return Err(Error::WriteFailed);
        }
        grow(&mut self.bytes, offset as usize)?;
        put_all(&mut self.bytes, offset as usize, bufs)?;
        self.past = Past::write(&self.past, offset, bufs, options.sync, false);
        Ok(())
    }

    fn resize(&mut self, len: u64) -> Result<(), Error>
        ensures goes { let old = life_of self.old.history in let new = life_of self.new.history in
            ResizeGoes len old new result }
        ensures tells { Tells (actions.Resize len) self.old self.new result }
        ensures stopped { self.new.stopped ≡ self.old.stopped }
        ensures asked { HasRoom len 0 self.old
            → self.new.history
            ≡ history_with (actions.Resize len) self.old.stopped self.old.history }
    {
        self.reserve(len, 0)?;
        if self.stopped {
            self.past = Past::resize(&self.past, len, true);
            return Err(Error::ResizeFailed);
        }
        self.bytes.resize(len as usize, 0)?;
        self.past = Past::resize(&self.past, len, false);
        Ok(())
    }

    fn sync(&mut self) -> Result<(), Error>
        ensures goes { SyncGoes (life_of self.old.history) (life_of self.new.history) result }
        ensures tells { Tells actions.Sync self.old self.new result }
        ensures stopped { self.new.stopped ≡ self.old.stopped }
        ensures asked { self.new.history
            ≡ history_with actions.Sync self.old.stopped self.old.history }
    {
        self.past = Past::sync(&self.past, self.stopped);
        if self.stopped {
            return Err(Error::SyncFailed);
        }
        Ok(())
    }

    fn start_sync(&mut self) -> Result<StartedSync, Error>
        ensures goes { StartGoes (life_of self.old.history) (life_of self.new.history) result }
        ensures tells { TellsStart self.old self.new result }
        ensures stopped { self.new.stopped ≡ self.old.stopped }
    {
        let name = self.starts;
        let Some(starts) = name.checked_add(1) else {
            return Err(Error::OutOfMemory);
        };
        self.starts = starts;
        self.past = Past::start_sync(&self.past, self.stopped);
        Ok(StartedSync::Named(name))
    }

    fn wait_sync(&mut self, started: StartedSync) -> Result<(), Error>
        ensures goes { let old = life_of self.old.history in let new = life_of self.new.history in
            WaitStartedGoes started old new result }
        ensures tells { let names = length (life_of self.old.history).present.started in
            TellsWait started names self.old self.new result }
        ensures stopped { self.new.stopped ≡ self.old.stopped }
    {
        let StartedSync::Named(name) = started else {
            return Ok(());
        };
        self.past = Past::wait_sync(&self.past, name, self.stopped);
        if self.stopped || name >= self.starts {
            return Err(Error::SyncFailed);
        }
        Ok(())
    }

    ghost readable_is_image = { λ b. life_reads b.history };

    ghost starts_are_covered = { λ b. life_covers b.history };
}
