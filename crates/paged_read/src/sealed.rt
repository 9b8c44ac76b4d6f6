// Snapshots.
ghost use Rattle.std.specs.Prelude.{◌≡◌, ◌+◌, ◌*◌, ◌<◌, ◌^◌, length, IfOk};
ghost use Rattle.std.specs.Prelude.{IsOkUnless, sum_by};
ghost use Rattle.std.specs.Int.NonZero.{non_zero_u16_get, non_zero_usize_get};
ghost use Rattle.std.specs.List.{concat};
ghost use Rattle.page.specs.Geometry.{AreInOrder};
ghost use Rattle.paged_read.specs.Batch.{ranges_of};
ghost use Rattle.paged_read.specs.Ranges.{range_up_to, TryReadGoes};
ghost use Rattle.paged_read.specs.Reads.{ReadCosts, ReadGoes, ReadIntoGoes, ReadLeaves};
ghost use Rattle.paged_read.specs.Reads.{ReadManyCosts, ReadManyGoes, ReadRangesGoes};
ghost use Rattle.paged_read.specs.Reads.{ReadUpToGoes, TryReadManyGoes};
ghost use Rattle.paged_read.specs.Snapshots.{IsSealed};
ghost use Rattle.paged_read.specs.Tail.{CanRead, IsView, Tail, tail_at, tail_size};

use crate::View;
use cache::CacheRef;
use disk::{Blob, Error, IoBufs};
use page::{Buffer, Sum};
use std::alloc::Global;
use std::marker::{Model, PhantomData};
use std::num::{NonZeroU16, NonZeroUsize};

/// A snapshot of a blob of the type `B`, with pages under the checksum function `H`: how many full
/// pages the blob had, and a copy of the bytes after them, less than a page.
///
/// A snapshot doesn't change. Its reads give the content of the moment at which it was made,
/// whatever the blob's writer does meanwhile and however the writer ends: a writer never rewrites a
/// full page. That holds until a crash, or until a recovery cuts the blob. A snapshot borrows
/// nothing and holds no page. The caller lends the blob and the cache to each read, always those of
/// the blob's writer.
#[derive(Drop)]
pub struct Sealed<B, H> {
    alloc: Global,
    id: u64,
    /// The bytes after the full pages.
    tip: Buffer,
    page_size: NonZeroU16,
    of: PhantomData<(B, H)>,
}

impl<B, H> Model for Sealed<B, H> {
    ghost Value = { Tail };

    ghost view = { λ s. tail_at s.page_size s.id s.tip };

    ghost invariant = { λ s. IsSealed (non_zero_u16_get s.page_size) s.tip };
}

impl<B, H> Sealed<B, H> {
    /// A snapshot of a blob whose full pages, of `page_size` logical bytes, end where the tip
    /// begins, and whose pages the cache knows under `id`.
    pub fn new(alloc: Global, page_size: NonZeroU16, id: u64, tip: Buffer) -> Self
        requires { IsSealed (non_zero_u16_get page_size) tip }
        ensures { result ≡ tail_at page_size id tip }
    {
        Sealed {
            alloc,
            id,
            tip,
            page_size,
            of: PhantomData,
        }
    }

    /// A snapshot equal to this one, with a copy of the bytes after the full pages. The only error
    /// is `OutOfMemory`.
    pub fn try_clone(&self) -> Result<Self, Error>
        ensures same { IfOk result (λ copy. copy ≡ self.now) }
        ensures err { IsOkUnless result Error.OutOfMemory }
    {
        let size = self.tip.page_size();
        let tip = Buffer::from(
            self.alloc,
            self.tip.offset(),
            self.tip.partial(),
            size,
            size,
        )?;
        Ok(Sealed::new(self.alloc, self.page_size, self.id, tip))
    }

    /// The size in logical bytes.
    pub fn size(&self) -> u64
        ensures { result ≡ tail_size self.now }
    {
        self.tip.size()
    }

    /// The allocator from which the snapshot takes its memory.
    pub(crate) fn alloc(&self) -> Global {
        self.alloc
    }

    /// The logical bytes of a page.
    pub(crate) fn page_size(&self) -> NonZeroU16
        ensures { non_zero_u16_get result ≡ self.now.page_size }
    {
        self.page_size
    }

    /// How many full pages the snapshot has. Their physical end is below 2^64.
    pub(crate) fn full_pages(&self) -> u64
        ensures pages { result ≡ self.now.full_pages }
        ensures fits { self.now.full_pages * (self.now.page_size + 12) < 2 ^ 64 }
        ensures addressable { tail_size self.now < 2 ^ 64 }
        ensures short { length self.now.bytes < self.now.page_size }
    {
        self.tip.offset() / u64::from(self.page_size.get())
    }

    /// The bytes after the full pages.
    pub(crate) fn bytes(&self) -> &[u8]
        ensures { result.now ≡ self.now.bytes }
    {
        self.tip.partial()
    }

    /// The view through which the snapshot is read. It borrows the snapshot, and can be copied.
    pub fn view(&self) -> View<'_, B, H>
        ensures view { IsView (non_zero_u16_get result.page_size) result.tip.now }
        ensures tail { tail_at result.page_size result.id result.tip.now ≡ self.now }
        ensures short { length self.now.bytes < self.now.page_size }
    {
        View::new(self.alloc, self.page_size, self.id, &self.tip)
    }

    /// Copies the logical bytes from `offset` on into `buf`, as many as `buf` has room for, if that
    /// needs no device: they lie within the size, and the cache holds the pages of those below the
    /// tip. Answers whether it did. At `false` `buf` may hold anything. The call takes no memory.
    pub fn try_read_sync_into(&self, cache: &CacheRef, buf: &mut [u8], offset: u64) -> bool
        requires page_size { cache.now.page_size ≡ self.now.page_size }
        ensures goes { TryReadGoes self.now (offset, length buf.old) cache.now buf.new result }
        ensures size { length buf.new ≡ length buf.old }
    {
        self.view().try_read_sync_into(cache, buf, offset)
    }

    /// Copies those of these ranges, each an offset and a length in logical bytes, that need no
    /// device to their places in `buf`, one range after the other. Answers the numbers of the other
    /// ranges, rising, or of all ranges if one passes the end. The places of the ranges that it
    /// answers may hold anything. The ranges are in order, don't overlap, and fill `buf`. The only
    /// error is `OutOfMemory`.
    pub fn try_read_ranges_sync_into(
        &self,
        cache: &CacheRef,
        buf: &mut [u8],
        ranges: &[(u64, usize)],
    ) -> Result<Vec<usize>, Error>
        requires page_size { cache.now.page_size ≡ self.now.page_size }
        requires asked { AreInOrder ranges.now
            × (length buf.old ≡ sum_by (λ range. range.1) ranges.now) }
        ensures goes { TryReadManyGoes self.now ranges.now cache.now buf.old buf.new result }
    {
        self.view().try_read_ranges_sync_into(cache, buf, ranges)
    }

    /// [`try_read_ranges_sync_into`](Self::try_read_ranges_sync_into) for ranges of `len` bytes at
    /// these offsets.
    pub fn try_read_many_sync_into(
        &self,
        cache: &CacheRef,
        buf: &mut [u8],
        offsets: &[u64],
        len: NonZeroUsize,
    ) -> Result<Vec<usize>, Error>
        requires page_size { cache.now.page_size ≡ self.now.page_size }
        requires asked { AreInOrder (ranges_of (non_zero_usize_get len) offsets.now)
            × (length buf.old ≡ length offsets.now * non_zero_usize_get len) }
        ensures goes { let ranges = ranges_of (non_zero_usize_get len) offsets.now in
            TryReadManyGoes self.now ranges cache.now buf.old buf.new result }
    {
        self.view()
            .try_read_many_sync_into(cache, buf, offsets, len)
    }
}

impl<B: Blob, H: Sum> Sealed<B, H> {
    /// Copies the logical bytes from `offset` on into `buf`, as many as `buf` has room for. Those
    /// of full pages come from the cache, else from the blob, by one read for each page. The others
    /// come from memory. Where the cache holds all pages that are needed the call takes no memory
    /// and asks no device. Pages that are read are put in the cache, even if the call fails
    /// afterwards.
    ///
    /// `OffsetOverflow` where the range's end passes the greatest `u64`, else
    /// `BlobInsufficientLength` where it passes the size, both before the device or memory is
    /// asked. `ReadFailed` where the device failed, `InvalidChecksum` where a page that is read
    /// isn't full, `OutOfMemory` where memory was refused. While the blob's writer is sound (keeps
    /// its invariant) the answer is never `InvalidChecksum`. After an error `buf` may hold
    /// anything.
    pub fn read_into(
        &self,
        blob: &mut B,
        cache: &mut CacheRef,
        buf: &mut [u8],
        offset: u64,
    ) -> Result<(), Error>
        requires can { CanRead self.now cache.old (B.life blob.old).present }
        ensures goes { let old = B.life blob.old in let new = B.life blob.new in
            ReadIntoGoes H.sum_of self.now cache.old offset buf.old buf.new old new result }
        ensures leaves { let old = B.life blob.old in let new = B.life blob.new in
            ReadLeaves H.sum_of self.now cache.old cache.new old new }
        ensures costs { let old = B.life blob.old in let new = B.life blob.new in
            ReadCosts H.sum_of self.now (offset, length buf.old) cache.old cache.new old new
            result }
    {
        self.view().read_into(blob, cache, buf, offset)
    }

    /// The `len` bytes from `offset` on, read as [`Sealed::read_into`] reads them, with its errors.
    pub fn read_at(
        &self,
        blob: &mut B,
        cache: &mut CacheRef,
        offset: u64,
        len: usize,
    ) -> Result<IoBufs, Error>
        requires can { CanRead self.now cache.old (B.life blob.old).present }
        ensures goes { let old = B.life blob.old in let new = B.life blob.new in
            ReadGoes H.sum_of self.now cache.old (offset, len) concat old new result }
        ensures leaves { let old = B.life blob.old in let new = B.life blob.new in
            ReadLeaves H.sum_of self.now cache.old cache.new old new }
        ensures costs { let old = B.life blob.old in let new = B.life blob.new in
            ReadCosts H.sum_of self.now (offset, len) cache.old cache.new old new result }
    {
        self.view().read_at(blob, cache, offset, len)
    }

    /// Reads as many bytes from `offset` on as there are, at most `len`, in place of what `bytes`
    /// held. Answers them and their number, which is at least 1, unless `len` is 0: that is
    /// answered at any offset.
    ///
    /// `BlobInsufficientLength` where `offset` is at or after the end and `len` isn't 0, before the
    /// device or memory is asked. `ReadFailed`, `InvalidChecksum` and `OutOfMemory` as
    /// [`Sealed::read_into`] answers them.
    pub fn read_up_to(
        &self,
        blob: &mut B,
        cache: &mut CacheRef,
        offset: u64,
        len: usize,
        bytes: Vec<u8>,
    ) -> Result<(Vec<u8>, usize), Error>
        requires can { CanRead self.now cache.old (B.life blob.old).present }
        ensures goes { let old = B.life blob.old in let new = B.life blob.new in
            ReadUpToGoes H.sum_of self.now cache.old offset len old new result }
        ensures leaves { let old = B.life blob.old in let new = B.life blob.new in
            ReadLeaves H.sum_of self.now cache.old cache.new old new }
        ensures costs { let old = B.life blob.old in let new = B.life blob.new in
            let range = range_up_to self.now offset len in
            ReadCosts H.sum_of self.now range cache.old cache.new old new result }
    {
        self.view().read_up_to(blob, cache, offset, len, bytes)
    }

    /// Reads these ranges, each an offset and a length in logical bytes, to their places in `buf`,
    /// one after the other. Answers how many of them needed no device: empty ones count. The ranges
    /// are in order, don't overlap, and fill `buf`. The pages that the cache lacks are read in one
    /// call of the device, each once, and put in the cache as they are delivered. Where the cache
    /// lacks none the call takes no memory.
    ///
    /// The first range that can't be read decides, before memory or the device is asked for:
    /// `OffsetOverflow` where its end passes the greatest `u64`, else `BlobInsufficientLength`
    /// where it passes the size. `ReadFailed`, `InvalidChecksum` and `OutOfMemory` as
    /// [`Sealed::read_into`] answers them.
    pub fn read_ranges_into(
        &self,
        blob: &mut B,
        cache: &mut CacheRef,
        buf: &mut [u8],
        ranges: &[(u64, usize)],
    ) -> Result<usize, Error>
        requires can { CanRead self.now cache.old (B.life blob.old).present }
        requires asked { AreInOrder ranges.now
            × (length buf.old ≡ sum_by (λ range. range.1) ranges.now) }
        ensures goes { let old = B.life blob.old in let new = B.life blob.new in
            ReadRangesGoes H.sum_of self.now cache.old ranges.now buf.old buf.new old new result }
        ensures leaves { let old = B.life blob.old in let new = B.life blob.new in
            ReadLeaves H.sum_of self.now cache.old cache.new old new }
        ensures costs { let old = B.life blob.old in let new = B.life blob.new in
            ReadManyCosts H.sum_of self.now ranges.now cache.old cache.new old new result }
    {
        self.view().read_ranges_into(blob, cache, buf, ranges)
    }

    /// [`read_ranges_into`](Self::read_ranges_into) for ranges of `len` bytes at these offsets. It
    /// takes memory for the ranges.
    pub fn read_many_into(
        &self,
        blob: &mut B,
        cache: &mut CacheRef,
        buf: &mut [u8],
        offsets: &[u64],
        len: NonZeroUsize,
    ) -> Result<usize, Error>
        requires can { CanRead self.now cache.old (B.life blob.old).present }
        requires asked { AreInOrder (ranges_of (non_zero_usize_get len) offsets.now)
            × (length buf.old ≡ length offsets.now * non_zero_usize_get len) }
        ensures goes { let old = B.life blob.old in let new = B.life blob.new in
            let ranges = ranges_of (non_zero_usize_get len) offsets.now in
            ReadManyGoes H.sum_of self.now cache.old ranges buf.old buf.new old new result }
        ensures leaves { let old = B.life blob.old in let new = B.life blob.new in
            ReadLeaves H.sum_of self.now cache.old cache.new old new }
        ensures costs { let old = B.life blob.old in let new = B.life blob.new in
            let ranges = ranges_of (non_zero_usize_get len) offsets.now in
            ReadManyCosts H.sum_of self.now ranges cache.old cache.new old new result }
    {
        self.view().read_many_into(blob, cache, buf, offsets, len)
    }
}
