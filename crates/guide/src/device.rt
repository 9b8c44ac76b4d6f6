// A device of one's own: a blob that counts its calls by kind, and hands each on to another.
use disk::{Blob, Error, IoBuf, IoBufs, ReadOptions, StartedRead, StartedSync, WriteOptions};
use std::alloc::Global;

/// A blob that hands each call on to another one, and counts the reads, the writes with the resizes,
/// and the syncs with the waits, whatever they answer. A count stays at the greatest `u64`.
#[derive(Drop)]
pub struct Metered<B> {
    pub inner: B,
    pub reads: u64,
    pub writes: u64,
    pub syncs: u64,
}

impl<B> Metered<B> {
    /// Counts the calls of this blob from now on.
    pub fn new(inner: B) -> Self {
        Metered {
            inner,
            reads: 0,
            writes: 0,
            syncs: 0,
        }
    }
}

impl<B: Blob> Blob for Metered<B> {
    ghost life = { λ b. B.life b.inner };

    fn len(&self) -> u64 {
        self.inner.len()
    }

    fn read_at(
        &mut self,
        alloc: Global,
        offset: u64,
        len: usize,
        options: ReadOptions,
    ) -> Result<IoBuf, Error> {
        self.reads = self.reads.saturating_add(1);
        self.inner.read_at(alloc, offset, len, options)
    }

    fn read_many(
        &mut self,
        alloc: Global,
        ranges: &[(u64, usize)],
        options: ReadOptions,
        out: &mut Vec<(usize, IoBuf)>,
    ) -> Result<(), Error> {
        self.reads = self.reads.saturating_add(1);
        self.inner.read_many(alloc, ranges, options, out)
    }

    fn start_read_many(
        &mut self,
        alloc: Global,
        ranges: &[(u64, usize)],
        options: ReadOptions,
    ) -> StartedRead {
        self.reads = self.reads.saturating_add(1);
        self.inner.start_read_many(alloc, ranges, options)
    }

    fn write_at(&mut self, offset: u64, bufs: &IoBufs, options: WriteOptions) -> Result<(), Error> {
        self.writes = self.writes.saturating_add(1);
        self.inner.write_at(offset, bufs, options)
    }

    fn resize(&mut self, len: u64) -> Result<(), Error> {
        self.writes = self.writes.saturating_add(1);
        self.inner.resize(len)
    }

    fn sync(&mut self) -> Result<(), Error> {
        self.syncs = self.syncs.saturating_add(1);
        self.inner.sync()
    }

    fn start_sync(&mut self) -> Result<StartedSync, Error> {
        self.inner.start_sync()
    }

    fn wait_sync(&mut self, started: StartedSync) -> Result<(), Error> {
        self.syncs = self.syncs.saturating_add(1);
        self.inner.wait_sync(started)
    }

    ghost readable_is_image = { λ b. B.readable_is_image b.inner };

    ghost starts_are_covered = { λ b. B.starts_are_covered b.inner };
}
