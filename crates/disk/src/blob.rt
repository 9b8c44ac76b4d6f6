// The device.
ghost use Rattle.std.specs.Prelude.{◌≡◌, [], length, true};
ghost use Rattle.std.specs.List.{concat};
ghost use Rattle.disk.specs.Disk.{Life, IsImage, AreCovered, Write, Resize, DeviceReadGoes};
ghost use Rattle.disk.specs.Disk.{WriteGoes, DeviceReadManyGoes, StartReadGoes, ResizeGoes};
ghost use Rattle.disk.specs.Disk.{SyncGoes, StartGoes, WaitStartedGoes};

use crate::{Error, IoBuf, IoBufs, StartedRead, StartedSync};
use std::alloc::Global;

/// How a read is to be done.
#[derive(Clone, Copy, Debug, Default, PartialEq, Eq)]
pub struct ReadOptions {
    /// What is read need not be kept in a cache of the device. This option changes no answer.
    pub dont_cache: bool,
}

/// How a write is to be done.
#[derive(Clone, Copy, Debug, Default, PartialEq, Eq)]
pub struct WriteOptions {
    /// The write is durable when it answers `Ok`.
    pub sync: bool,
    /// What is written need not be kept in a cache of the device. This option changes no answer.
    pub dont_cache: bool,
}

/// A run of bytes on a device, read and written at offsets in bytes.
///
/// A blob's life is its disk now and at each moment before. Each call has one clause, by cases on
/// its answer: what it did to the life, and why an error came. A call looks for an overflow first,
/// then for the end, then for memory, and asks the device last. A call that answers
/// `OffsetOverflow`, `BlobInsufficientLength` or `OutOfMemory` asked no device: it changed nothing
/// and stands in no log. A start of reads reports these errors at the wait for the reads.
///
/// A sync that failed may be asked for again, also by a recovery that begins on the same blob:
/// where the later one answers `Ok`, all that is readable is durable, what was written before the
/// failure included. A file's device keeps this law only where it knows what it lost. After a sync
/// that failed it must not answer `Ok` for bytes that the system dropped: a device that doesn't
/// know which bytes these are has to refuse every later call.
pub trait Blob {
    /// The blob's disk now, and at each moment before.
    ghost life: { Self → Life };

    /// How many bytes are readable. No device is asked.
    fn len(&self) -> u64
        ensures { result ≡ length (life self.now).present.readable };

    /// The `len` bytes at `offset`. `BlobInsufficientLength` where the range passes the end,
    /// `OutOfMemory` only where the range doesn't, `ReadFailed` where the device failed. An error
    /// leaves the blob's bytes as they were.
    fn read_at(
        &mut self,
        alloc: Global,
        offset: u64,
        len: usize,
        options: ReadOptions,
    ) -> Result<IoBuf, Error>
        ensures goes { DeviceReadGoes offset len (life self.old) (life self.new) result };

    /// The bytes of each of the ranges, an offset and a length in bytes, in one device call. At
    /// `Ok` `out` holds the number of each range, counted from 0, once with its bytes, in any
    /// order, and nothing else. `BlobInsufficientLength` where a range passes the end,
    /// `OutOfMemory` only where none does, `ReadFailed` where the device failed. After an error
    /// `out` may hold anything.
    fn read_many(
        &mut self,
        alloc: Global,
        ranges: &[(u64, usize)],
        options: ReadOptions,
        out: &mut Vec<(usize, IoBuf)>,
    ) -> Result<(), Error>
        ensures goes { DeviceReadManyGoes ranges.now (life self.old) (life self.new) out.new.items
            result };

    /// Starts a read of each of the ranges, an offset and a length in bytes, in one device call.
    /// The answer keeps the bytes of each range, in the order of the ranges and as they were at the
    /// start. The call itself never fails: the wait reports an error. It answers
    /// `BlobInsufficientLength` where a range passes the end, `OutOfMemory` only where none does,
    /// and `ReadFailed` where the device failed. For the first two no device was asked.
    fn start_read_many(
        &mut self,
        alloc: Global,
        ranges: &[(u64, usize)],
        options: ReadOptions,
    ) -> StartedRead
        ensures goes { StartReadGoes ranges.now (life self.old) (life self.new) result };

    /// Sets the bytes at `offset`; a gap after the end is filled with zeros. With `sync` the bytes
    /// are durable at `Ok`, and nothing may be unsynced before the call. `OffsetOverflow` where the
    /// range passes the greatest offset, `OutOfMemory` only where the range doesn't, `WriteFailed`
    /// where the device failed: then each byte is the old one or the new one, and the length lies
    /// between the old one and the new one.
    fn write_at(&mut self, offset: u64, bufs: &IoBufs, options: WriteOptions) -> Result<(), Error>
        requires settled { options.sync ≡ true → (life self.old).present.since ≡ [] }
        ensures goes { WriteGoes offset (concat bufs.now) options.sync (life self.old)
            (life self.new) result };

    /// Cuts the blob to `len` bytes, or fills it with zeros up to `len`. `ResizeFailed` where the
    /// device failed: then the length lies between the old one and `len`. `OutOfMemory`, which
    /// changes nothing.
    fn resize(&mut self, len: u64) -> Result<(), Error>
        ensures goes { ResizeGoes len (life self.old) (life self.new) result };

    /// Makes all that is readable durable, whatever failed before. `SyncFailed` where the device
    /// failed: then no more and no less is durable than before. `OutOfMemory`, which changes
    /// nothing.
    fn sync(&mut self) -> Result<(), Error>
        ensures goes { SyncGoes (life self.old) (life self.new) result };

    /// Starts to make durable all that is readable, and answers the name of that sync: the number
    /// of syncs that were started before it. Nothing more is durable until a wait for it, or a
    /// sync, answers `Ok`. A failure of the device shows only at the wait. `OutOfMemory`, which
    /// starts none.
    fn start_sync(&mut self) -> Result<StartedSync, Error>
        ensures goes { StartGoes (life self.old) (life self.new) result };

    /// Waits until what a started sync covers is durable: all that was readable at its start.
    /// `SyncFailed` where the device failed, now or at the start or an earlier wait: then each
    /// later wait for that sync fails too. `SyncFailed` also where the blob started no sync of this
    /// name. `OutOfMemory`, which changes nothing. What was durable stays durable. For
    /// `StartedSync::Done` no device is asked.
    fn wait_sync(&mut self, started: StartedSync) -> Result<(), Error>
        ensures goes { WaitStartedGoes started (life self.old) (life self.new) result };

    /// What is readable is an image: one of the things that a crash may leave.
    ghost readable_is_image: { (b : Self) → IsImage (life b).present (life b).present.readable };

    /// No started sync covers an operation that is still to come.
    ghost starts_are_covered: { (b : Self) → AreCovered (life b).present };
}
