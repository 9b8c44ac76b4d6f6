// A blob that counts what it is asked for.
ghost use Rattle.std.specs.Prelude.{◌≡◌, ◌+◌, ◌-◌, ◌^◌, [], min, length, sum_by, true};
ghost use Rattle.std.specs.List.{concat};
ghost use Rattle.disk.specs.Disk.{DeviceReadGoes, DeviceReadManyGoes, WriteGoes, ResizeGoes};
ghost use Rattle.disk.specs.Disk.{SyncGoes, StartReadGoes, StartGoes, WaitStartedGoes};
ghost use Rattle.disk.specs.Disk.{calls_after_wait};

use crate::{Blob, Error, IoBuf, IoBufs, ReadOptions, StartedRead, StartedSync, WriteOptions};
use std::alloc::Global;

/// A blob that hands each call on to another, and counts the calls, except [`Blob::len`], and the
/// bytes that it is asked to read and to write. A wait for `StartedSync::Done` isn't handed on and
/// isn't counted. A count that has come to the greatest `u64` stays there.
#[derive(Drop)]
pub struct Counted<B> {
    /// The other blob.
    pub inner: B,
    /// How many calls there were, whatever they answered.
    pub calls: u64,
    /// The bytes of all reads, whatever they answered.
    pub read: u64,
    /// The bytes of all writes, whatever they answered.
    pub written: u64,
}

impl<B> Counted<B> {
    /// A blob of which nothing was asked yet.
    pub fn new(inner: B) -> Self
        ensures inner { result.inner ≡ inner }
        ensures calls { result.calls ≡ 0 }
        ensures read { result.read ≡ 0 }
        ensures written { result.written ≡ 0 }
    {
        Counted {
            inner,
            calls: 0,
            read: 0,
            written: 0,
        }
    }

    // Counts a call that asks for these ranges.
    fn count_ranges(&mut self, ranges: &[(u64, usize)])
        ensures inner { self.new.inner ≡ self.old.inner }
        ensures calls { self.new.calls ≡ min (self.old.calls + 1) (2 ^ 64 - 1) }
        ensures read { let bytes = sum_by (λ r. r.1) ranges.now in
            self.new.read ≡ min (self.old.read + bytes) (2 ^ 64 - 1) }
        ensures written { self.new.written ≡ self.old.written }
    {
        self.calls = self.calls.saturating_add(1);
        self.read = with_lengths(self.read, ranges);
    }
}

impl<B: Blob> Blob for Counted<B> {
    ghost life = { λ b. B.life b.inner };

    fn len(&self) -> u64 {
        self.inner.len()
    }

    fn read_at(
        &mut self,
        alloc: Global,
        offset: u64,
        len: usize,
        options: ReadOptions,
    ) -> Result<IoBuf, Error>
        ensures goes { DeviceReadGoes offset len (B.life self.old.inner) (B.life self.new.inner)
            result }
        ensures calls { self.new.calls ≡ min (self.old.calls + 1) (2 ^ 64 - 1) }
        ensures read { self.new.read ≡ min (self.old.read + len) (2 ^ 64 - 1) }
        ensures written { self.new.written ≡ self.old.written }
    {
        self.calls = self.calls.saturating_add(1);
        self.read = self.read.saturating_add(len as u64);
        self.inner.read_at(alloc, offset, len, options)
    }

    fn read_many(
        &mut self,
        alloc: Global,
        ranges: &[(u64, usize)],
        options: ReadOptions,
        out: &mut Vec<(usize, IoBuf)>,
    ) -> Result<(), Error>
        ensures goes { let old = B.life self.old.inner in let new = B.life self.new.inner in
            DeviceReadManyGoes ranges.now old new out.new.items result }
        ensures calls { self.new.calls ≡ min (self.old.calls + 1) (2 ^ 64 - 1) }
        ensures read { let bytes = sum_by (λ r. r.1) ranges.now in
            self.new.read ≡ min (self.old.read + bytes) (2 ^ 64 - 1) }
        ensures written { self.new.written ≡ self.old.written }
    {
        self.count_ranges(ranges);
        self.inner.read_many(alloc, ranges, options, out)
    }

    fn start_read_many(
        &mut self,
        alloc: Global,
        ranges: &[(u64, usize)],
        options: ReadOptions,
    ) -> StartedRead
        ensures goes { let old = B.life self.old.inner in let new = B.life self.new.inner in
            StartReadGoes ranges.now old new result }
        ensures calls { self.new.calls ≡ min (self.old.calls + 1) (2 ^ 64 - 1) }
        ensures read { let bytes = sum_by (λ r. r.1) ranges.now in
            self.new.read ≡ min (self.old.read + bytes) (2 ^ 64 - 1) }
        ensures written { self.new.written ≡ self.old.written }
    {
        self.count_ranges(ranges);
        self.inner.start_read_many(alloc, ranges, options)
    }

    fn write_at(&mut self, offset: u64, bufs: &IoBufs, options: WriteOptions) -> Result<(), Error>
        requires settled { options.sync ≡ true → (B.life self.old.inner).present.since ≡ [] }
        ensures goes { let old = B.life self.old.inner in let new = B.life self.new.inner in
            WriteGoes offset (concat bufs.now) options.sync old new result }
        ensures calls { self.new.calls ≡ min (self.old.calls + 1) (2 ^ 64 - 1) }
        ensures read { self.new.read ≡ self.old.read }
        ensures written { let bytes = concat bufs.now in
            self.new.written ≡ min (self.old.written + length bytes) (2 ^ 64 - 1) }
    {
        self.calls = self.calls.saturating_add(1);
        self.written = self.written.saturating_add(bufs.len() as u64);
        self.inner.write_at(offset, bufs, options)
    }

    fn resize(&mut self, len: u64) -> Result<(), Error>
        ensures goes { ResizeGoes len (B.life self.old.inner) (B.life self.new.inner) result }
        ensures calls { self.new.calls ≡ min (self.old.calls + 1) (2 ^ 64 - 1) }
        ensures read { self.new.read ≡ self.old.read }
        ensures written { self.new.written ≡ self.old.written }
    {
        self.calls = self.calls.saturating_add(1);
        self.inner.resize(len)
    }

    fn sync(&mut self) -> Result<(), Error>
        ensures goes { SyncGoes (B.life self.old.inner) (B.life self.new.inner) result }
        ensures calls { self.new.calls ≡ min (self.old.calls + 1) (2 ^ 64 - 1) }
        ensures read { self.new.read ≡ self.old.read }
        ensures written { self.new.written ≡ self.old.written }
    {
        self.calls = self.calls.saturating_add(1);
        self.inner.sync()
    }

    fn start_sync(&mut self) -> Result<StartedSync, Error>
        ensures goes { StartGoes (B.life self.old.inner) (B.life self.new.inner) result }
        ensures calls { self.new.calls ≡ min (self.old.calls + 1) (2 ^ 64 - 1) }
        ensures read { self.new.read ≡ self.old.read }
        ensures written { self.new.written ≡ self.old.written }
    {
        self.calls = self.calls.saturating_add(1);
        self.inner.start_sync()
    }

    fn wait_sync(&mut self, started: StartedSync) -> Result<(), Error>
        ensures goes { WaitStartedGoes started (B.life self.old.inner) (B.life self.new.inner)
            result }
        ensures calls { self.new.calls ≡ calls_after_wait started self.old.calls }
        ensures read { self.new.read ≡ self.old.read }
        ensures written { self.new.written ≡ self.old.written }
    {
        match started {
            StartedSync::Done => Ok(()),
            StartedSync::Named(_) => {
                self.calls = self.calls.saturating_add(1);
                self.inner.wait_sync(started)
            }
        }
    }

    ghost readable_is_image = { λ b. B.readable_is_image b.inner };

    ghost starts_are_covered = { λ b. B.starts_are_covered b.inner };
}

// A count with the lengths of these ranges added, which stays at the greatest `u64`.
fn with_lengths(count: u64, ranges: &[(u64, usize)]) -> u64
    ensures { result ≡ min (count + sum_by (λ r. r.1) ranges.now) (2 ^ 64 - 1) }
{
    let mut sum = count;
    for &(_, len) in ranges {
        sum = sum.saturating_add(len as u64);
    }
    sum
}
