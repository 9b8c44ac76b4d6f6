// Readers of a journal's records.
ghost use Rattle.std.specs.Prelude.{◌≡◌};
ghost use Rattle.paged_read.specs.Tail.{logical_bytes};
ghost use Rattle.journal.specs.Journal.{ReadRecordGoes};
ghost use Rattle.journal.specs.Reader.{FindsNext, IsOpenSnapshot, IsReader, NextRecordGoes};
ghost use Rattle.journal.specs.Reader.{OnlyLooks};
ghost use Rattle.journal.specs.Calls.{ReaderLeaves};
ghost use Rattle.journal.specs.Costs.{FrameCosts, NextCosts};

use crate::frame::Found;
use crate::lookup::frame_at;
use cache::CacheRef;
use disk::{Blob, Error, IoBuf};
use page::Sum;
use paged::Sealed;
use std::alloc::Global;
use std::marker::{Model, PhantomData};

/// A reader of the records that a journal had when the reader was made, by
/// [`Journal::reader`](crate::journal::Journal::reader): one by one, in order, by
/// [`Reader::next`].
///
/// The reader goes over a snapshot. So it answers just those records, whatever is appended,
/// committed or refused meanwhile, until the blob crashes or is recovered. Reading a record doesn't
/// commit it. The reader borrows nothing: the blob and the cache are lent to each call, always
/// those of the journal.
#[derive(Drop)]
pub struct Reader<B, H, R> {
    alloc: Global,
    snapshot: Sealed<B, H>,
    /// Where the next frame begins.
    offset: u64,
    of: PhantomData<R>,
}

impl<B, H, R> Model for Reader<B, H, R> {
    ghost use Rattle.journal.specs.Reader.{ReaderState};

    ghost Value = { ReaderState };

    ghost view = { λ r. record { tail = r.snapshot; offset = r.offset } };
}

// The frame that begins at an offset, or none at the end.
fn find<B: Blob, H: Sum, R: Sum>(
    alloc: Global,
    snapshot: &Sealed<B, H>,
    blob: &mut B,
    cache: &mut CacheRef,
    offset: u64,
) -> Result<Option<Found>, Error>
    requires opened { IsOpenSnapshot H.sum_of snapshot.now cache.old (B.life blob.old) }
    ensures reads { let old = B.life blob.old in let new = B.life blob.new in
        ReadRecordGoes R.sum_of (logical_bytes snapshot.now old.present.readable) offset old new
        result }
    ensures leaves { let old = B.life blob.old in let new = B.life blob.new in
        OnlyLooks H.sum_of snapshot.now cache.old cache.new old new }
    ensures costs { let old = B.life blob.old in let new = B.life blob.new in
        let t = snapshot.now in
        FrameCosts t (logical_bytes t old.present.readable) offset cache.old cache.new old new }
{
    frame_at::<B, H, R>(alloc, snapshot.view(), blob, cache, offset)
}

// The first frame from an offset on that is a record; if there is none, no record and the end.
fn find_record<B: Blob, H: Sum, R: Sum>(
    alloc: Global,
    snapshot: &Sealed<B, H>,
    blob: &mut B,
    cache: &mut CacheRef,
    from: u64,
) -> Result<Found, Error>
    requires opened { IsOpenSnapshot H.sum_of snapshot.now cache.old (B.life blob.old) }
    ensures finds { let old = B.life blob.old in let new = B.life blob.new in
        FindsNext R.sum_of (logical_bytes snapshot.now old.present.readable) from old new result }
    ensures leaves { let old = B.life blob.old in let new = B.life blob.new in
        OnlyLooks H.sum_of snapshot.now cache.old cache.new old new }
    ensures costs { let old = B.life blob.old in let new = B.life blob.new in
        let t = snapshot.now in
        NextCosts R.sum_of t (logical_bytes t old.present.readable) from cache.old cache.new old
        new }
{
    let mut offset = from;
    'frames: loop {
        let Some(found) = find::<B, H, R>(alloc, snapshot, blob, cache, offset)? else {
            return Ok(Found {
                bytes: None,
                end: offset,
            });
        };
        if found.bytes.is_some() {
            return Ok(found);
        }
        offset = found.end;
    }
}

impl<B, H, R> Reader<B, H, R> {
    /// A reader that begins at the first record of a snapshot.
    pub(crate) fn new(alloc: Global, snapshot: Sealed<B, H>) -> Self
        ensures { result ≡ record { tail = snapshot; offset = 0 } }
    {
        Reader {
            alloc,
            snapshot,
            offset: 0,
            of: PhantomData,
        }
    }
}

impl<B: Blob, H: Sum, R: Sum> Reader<B, H, R> {
    /// The next record, or `None` after the last. A frame that is no record is passed over. This
    /// isn't `Iterator::next`, since the blob and the cache are lent to each call.
    ///
    /// Each frame that is passed over, and the record's, is read once, as
    /// [`Journal::read_record`](crate::journal::Journal::read_record) reads it. No other is read.
    ///
    /// `ReadFailed` where a read of the device failed. `OutOfMemory` where memory was refused,
    /// perhaps after reads of the device, of which none failed. An error leaves the reader where it
    /// was, so that the call can be made again.
    pub fn next(&mut self, blob: &mut B, cache: &mut CacheRef) -> Result<Option<IoBuf>, Error>
        requires reader { IsReader H.sum_of self.old cache.old (B.life blob.old) }
        ensures goes { let old = B.life blob.old in let new = B.life blob.new in
            NextRecordGoes R.sum_of self.old self.new old new result }
        ensures ready { IsReader H.sum_of self.new cache.new (B.life blob.new) }
        ensures leaves { let old = B.life blob.old in let new = B.life blob.new in
            ReaderLeaves H.sum_of R.sum_of self.old cache.old cache.new old new }
        ensures costs { let old = B.life blob.old in let new = B.life blob.new in
            let t = self.old.tail in let held = logical_bytes t old.present.readable in
            NextCosts R.sum_of t held self.old.offset cache.old cache.new old new }
    {
        let found = find_record::<B, H, R>(self.alloc, &self.snapshot, blob, cache, self.offset)?;
        self.offset = found.end;
        Ok(found.bytes)
    }
}
