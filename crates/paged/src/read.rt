// Reading.
ghost use Rattle.std.specs.Prelude.{◌≡◌, ◌*◌, length, sum_by};
ghost use Rattle.std.specs.Int.NonZero.{non_zero_u16_get, non_zero_usize_get};
ghost use Rattle.std.specs.List.{concat};
ghost use Rattle.page.specs.Geometry.{AreInOrder};
ghost use Rattle.paged_read.specs.Batch.{ranges_of};
ghost use Rattle.paged_read.specs.Ranges.{range_up_to, TryReadGoes};
ghost use Rattle.paged_read.specs.Reads.{ReadCosts, ReadGoes, ReadIntoGoes, ReadLeaves};
ghost use Rattle.paged_read.specs.Reads.{ReadManyCosts, ReadManyGoes, ReadRangesGoes};
ghost use Rattle.paged_read.specs.Reads.{ReadUpToGoes, TryReadManyGoes};
ghost use Rattle.paged_read.specs.Tail.{CanRead, IsView, tail_at};
ghost use Rattle.paged.specs.Caches.{tail_of};
ghost use Rattle.paged.specs.Ready.{StaysReady};

use crate::Writer;
use cache::CacheRef;
use disk::{Blob, Error, IoBufs};
use page::Sum;
use paged_read::View;
use std::num::NonZeroUsize;

impl<B, H, Phase> Writer<B, H, Phase> {
    /// The view through which the writer's content is read. It borrows the writer, and can be
    /// copied.
    pub fn view(&self) -> View<'_, B, H>
        ensures view { IsView (non_zero_u16_get result.page_size) result.tip.now }
        ensures tail { tail_at result.page_size result.id result.tip.now ≡ tail_of self.now }
    {
        View::new(self.alloc, self.page_size, self.id, &self.tip)
    }

    /// Copies the logical bytes from `offset` on into `buf`, as many as `buf` has room for, if that
    /// needs no device: they lie within the size, and the cache holds the pages of those below the
    /// tip. Answers whether it did. At `false` `buf` may hold anything. The call takes no memory.
    pub fn try_read_sync_into(&self, cache: &CacheRef, buf: &mut [u8], offset: u64) -> bool
        requires page_size { cache.now.page_size ≡ self.now.page_size }
        ensures goes { TryReadGoes (tail_of self.now) (offset, length buf.old) cache.now buf.new
            result }
        ensures size { length buf.new ≡ length buf.old }
    {
        self.view().try_read_sync_into(cache, buf, offset)
    }

    /// Copies those of these ranges, each an offset and a length in logical bytes, that need no
    /// device to their places in `buf`, one range after the other. Answers the numbers of the other
    /// ranges, rising, or of all ranges if one passes the end. The places of the ranges that it
    /// answers may hold anything. The ranges are in order, don't overlap, and fill `buf`. The only
    /// error is `OutOfMemory`.
    pub fn try_read_ranges_sync_into(
        &self,
        cache: &CacheRef,
        buf: &mut [u8],
        ranges: &[(u64, usize)],
    ) -> Result<Vec<usize>, Error>
        requires page_size { cache.now.page_size ≡ self.now.page_size }
        requires asked { AreInOrder ranges.now
            × (length buf.old ≡ sum_by (λ range. range.1) ranges.now) }
        ensures goes { let t = tail_of self.now in
            TryReadManyGoes t ranges.now cache.now buf.old buf.new result }
    {
        self.view().try_read_ranges_sync_into(cache, buf, ranges)
    }

    /// [`try_read_ranges_sync_into`](Self::try_read_ranges_sync_into) for ranges of `len` bytes at
    /// these offsets.
    pub fn try_read_many_sync_into(
        &self,
        cache: &CacheRef,
        buf: &mut [u8],
        offsets: &[u64],
        len: NonZeroUsize,
    ) -> Result<Vec<usize>, Error>
        requires page_size { cache.now.page_size ≡ self.now.page_size }
        requires asked { AreInOrder (ranges_of (non_zero_usize_get len) offsets.now)
            × (length buf.old ≡ length offsets.now * non_zero_usize_get len) }
        ensures goes { let t = tail_of self.now in
            let ranges = ranges_of (non_zero_usize_get len) offsets.now in
            TryReadManyGoes t ranges cache.now buf.old buf.new result }
    {
        self.view()
            .try_read_many_sync_into(cache, buf, offsets, len)
    }
}

impl<B: Blob, H: Sum, Phase> Writer<B, H, Phase> {
    /// Copies the logical bytes from `offset` on into `buf`, as many as `buf` has room for. Those
    /// below the tip come from pages that the cache holds, else from the blob, by one read for each
    /// page. The others come from memory. Where the cache holds all pages that are needed the call
    /// takes no memory and asks no device. Pages that are read are put in the cache, even if the
    /// call fails afterwards.
    ///
    /// `OffsetOverflow` where the range's end passes the greatest `u64`, else
    /// `BlobInsufficientLength` where it passes the size, both before the device or memory is
    /// asked. `ReadFailed` where the device failed, `InvalidChecksum` where a page below the tip
    /// that is read isn't full, `OutOfMemory` where memory was refused. While the writer is sound
    /// (keeps its invariant) the answer is never `InvalidChecksum`. After an error `buf` may hold
    /// anything.
    pub fn read_into(
        &self,
        blob: &mut B,
        cache: &mut CacheRef,
        buf: &mut [u8],
        offset: u64,
    ) -> Result<(), Error>
        requires can { CanRead (tail_of self.now) cache.old (B.life blob.old).present }
        ensures goes { let old = B.life blob.old in let new = B.life blob.new in
            let t = tail_of self.now in
            ReadIntoGoes H.sum_of t cache.old offset buf.old buf.new old new result }
        ensures leaves { let old = B.life blob.old in let new = B.life blob.new in
            ReadLeaves H.sum_of (tail_of self.now) cache.old cache.new old new }
        ensures costs { let old = B.life blob.old in let new = B.life blob.new in
            let t = tail_of self.now in
            ReadCosts H.sum_of t (offset, length buf.old) cache.old cache.new old new result }
        ensures ready { let old = B.life blob.old in let new = B.life blob.new in
            StaysReady H.sum_of self.now cache.old cache.new old new }
    {
        self.view().read_into(blob, cache, buf, offset)
    }

    /// The `len` bytes from `offset` on, read as [`Writer::read_into`] reads them, with its errors.
    pub fn read_at(
        &self,
        blob: &mut B,
        cache: &mut CacheRef,
        offset: u64,
        len: usize,
    ) -> Result<IoBufs, Error>
        requires can { CanRead (tail_of self.now) cache.old (B.life blob.old).present }
        ensures goes { let old = B.life blob.old in let new = B.life blob.new in
            let t = tail_of self.now in
            ReadGoes H.sum_of t cache.old (offset, len) concat old new result }
        ensures leaves { let old = B.life blob.old in let new = B.life blob.new in
            ReadLeaves H.sum_of (tail_of self.now) cache.old cache.new old new }
        ensures costs { let old = B.life blob.old in let new = B.life blob.new in
            let t = tail_of self.now in
            ReadCosts H.sum_of t (offset, len) cache.old cache.new old new result }
        ensures ready { let old = B.life blob.old in let new = B.life blob.new in
            StaysReady H.sum_of self.now cache.old cache.new old new }
    {
        self.view().read_at(blob, cache, offset, len)
    }

    /// Reads as many bytes from `offset` on as there are, at most `len`, in place of what `bytes`
    /// held. Answers them and their number, which is at least 1, unless `len` is 0: that is
    /// answered at any offset.
    ///
    /// `BlobInsufficientLength` where `offset` is at or after the end and `len` isn't 0, before the
    /// device or memory is asked. `ReadFailed`, `InvalidChecksum` and `OutOfMemory` as
    /// [`Writer::read_into`] answers them.
    pub fn read_up_to(
        &self,
        blob: &mut B,
        cache: &mut CacheRef,
        offset: u64,
        len: usize,
        bytes: Vec<u8>,
    ) -> Result<(Vec<u8>, usize), Error>
        requires can { CanRead (tail_of self.now) cache.old (B.life blob.old).present }
        ensures goes { let old = B.life blob.old in let new = B.life blob.new in
            let t = tail_of self.now in
            ReadUpToGoes H.sum_of t cache.old offset len old new result }
        ensures leaves { let old = B.life blob.old in let new = B.life blob.new in
            ReadLeaves H.sum_of (tail_of self.now) cache.old cache.new old new }
        ensures costs { let old = B.life blob.old in let new = B.life blob.new in
            let t = tail_of self.now in
            ReadCosts H.sum_of t (range_up_to t offset len) cache.old cache.new old new result }
        ensures ready { let old = B.life blob.old in let new = B.life blob.new in
            StaysReady H.sum_of self.now cache.old cache.new old new }
    {
        self.view().read_up_to(blob, cache, offset, len, bytes)
    }

    /// Reads these ranges, each an offset and a length in logical bytes, to their places in `buf`,
    /// one after the other. Answers how many of them needed no device: empty ones count. The ranges
    /// are in order, don't overlap, and fill `buf`. The pages that the cache lacks are read in one
    /// call of the device, each once, and put in the cache as they are delivered. Where the cache
    /// lacks none the call takes no memory.
    ///
    /// The first range that can't be read decides, before memory or the device is asked for:
    /// `OffsetOverflow` where its end passes the greatest `u64`, else `BlobInsufficientLength`
    /// where it passes the size. `ReadFailed`, `InvalidChecksum` and `OutOfMemory` as
    /// [`Writer::read_into`] answers them.
    pub fn read_ranges_into(
        &self,
        blob: &mut B,
        cache: &mut CacheRef,
        buf: &mut [u8],
        ranges: &[(u64, usize)],
    ) -> Result<usize, Error>
        requires can { CanRead (tail_of self.now) cache.old (B.life blob.old).present }
        requires asked { AreInOrder ranges.now
            × (length buf.old ≡ sum_by (λ range. range.1) ranges.now) }
        ensures goes { let old = B.life blob.old in let new = B.life blob.new in
            let t = tail_of self.now in
            ReadRangesGoes H.sum_of t cache.old ranges.now buf.old buf.new old new result }
        ensures leaves { let old = B.life blob.old in let new = B.life blob.new in
            ReadLeaves H.sum_of (tail_of self.now) cache.old cache.new old new }
        ensures costs { let old = B.life blob.old in let new = B.life blob.new in
            let t = tail_of self.now in
            ReadManyCosts H.sum_of t ranges.now cache.old cache.new old new result }
        ensures ready { let old = B.life blob.old in let new = B.life blob.new in
            StaysReady H.sum_of self.now cache.old cache.new old new }
    {
        self.view().read_ranges_into(blob, cache, buf, ranges)
    }

    /// [`read_ranges_into`](Self::read_ranges_into) for ranges of `len` bytes at these offsets. It
    /// takes memory for the ranges.
    pub fn read_many_into(
        &self,
        blob: &mut B,
        cache: &mut CacheRef,
        buf: &mut [u8],
        offsets: &[u64],
        len: NonZeroUsize,
    ) -> Result<usize, Error>
        requires can { CanRead (tail_of self.now) cache.old (B.life blob.old).present }
        requires asked { AreInOrder (ranges_of (non_zero_usize_get len) offsets.now)
            × (length buf.old ≡ length offsets.now * non_zero_usize_get len) }
        ensures goes { let old = B.life blob.old in let new = B.life blob.new in
            let t = tail_of self.now in
            let ranges = ranges_of (non_zero_usize_get len) offsets.now in
            ReadManyGoes H.sum_of t cache.old ranges buf.old buf.new old new result }
        ensures leaves { let old = B.life blob.old in let new = B.life blob.new in
            ReadLeaves H.sum_of (tail_of self.now) cache.old cache.new old new }
        ensures costs { let old = B.life blob.old in let new = B.life blob.new in
            let t = tail_of self.now in
            let ranges = ranges_of (non_zero_usize_get len) offsets.now in
            ReadManyCosts H.sum_of t ranges cache.old cache.new old new result }
        ensures ready { let old = B.life blob.old in let new = B.life blob.new in
            StaysReady H.sum_of self.now cache.old cache.new old new }
    {
        self.view().read_many_into(blob, cache, buf, offsets, len)
    }
}
