// Views.
ghost use Rattle.std.specs.Prelude.{◌≡◌, ◌+◌, ◌-◌, ◌*◌, ◌<◌, ◌≤◌, length, min, take};
ghost use Rattle.std.specs.Prelude.{drop};
ghost use Rattle.std.specs.Int.NonZero.{non_zero_u16_get};
ghost use Rattle.std.specs.List.{concat};
ghost use Rattle.paged_read.specs.Tail.{tail_at, tail_size, IsView, CanRead};
ghost use Rattle.paged_read.specs.Ranges.{TryReadGoes, range_up_to};
ghost use Rattle.paged_read.specs.Parts.{TriesBelow};
ghost use Rattle.paged_read.specs.Reads.{ReadCosts, ReadGoes, ReadIntoGoes, ReadLeaves};
ghost use Rattle.paged_read.specs.Reads.{ReadUpToGoes};

use cache::CacheRef;
use disk::{Blob, Error, IoBufs};
use page::{Buffer, Sum};
use std::alloc::{AllocError, Global};
use std::marker::PhantomData;
use std::num::NonZeroU16;

/// What reads see of a blob of the type `B`, with pages under the checksum function `H`: its full
/// pages, and the bytes after them, in memory (the tip).
///
/// The caller lends the blob and the cache to each call, always those of the blob's writer. A read
/// leaves the blob as it is. It puts each page that it reads in the cache, even if it fails
/// afterwards: a read of one range in rising order, a read of many as the device delivers them. A
/// page that isn't full isn't put: the read answers `InvalidChecksum`. That never happens while the
/// blob's writer is sound (keeps its invariant).
#[derive(Drop)]
pub struct View<'a, B, H> {
    pub(crate) alloc: Global,
    pub(crate) page_size: NonZeroU16,
    pub(crate) id: u64,
    pub(crate) tip: &'a Buffer,
    pub(crate) of: PhantomData<(B, H)>,
}

impl<B, H> Clone for View<'_, B, H> {
    ghost is_clone = { λ v copy. copy ≡ v };

    fn clone(&self) -> Result<Self, AllocError> {
        Ok(*self)
    }
}

impl<B, H> Copy for View<'_, B, H> {}

impl<'a, B, H> View<'a, B, H> {
    /// A view of a blob whose full pages, of `page_size` logical bytes, end where the tip begins,
    /// and whose pages the cache knows under `id`.
    pub fn new(alloc: Global, page_size: NonZeroU16, id: u64, tip: &'a Buffer) -> Self
        requires { IsView (non_zero_u16_get page_size) tip.now }
        ensures page_size { result.page_size ≡ page_size }
        ensures id { result.id ≡ id }
        ensures tip { result.tip.now ≡ tip.now }
    {
        View {
            alloc,
            page_size,
            id,
            tip,
            of: PhantomData,
        }
    }
}

impl<B, H> View<'_, B, H> {
    /// The size in logical bytes, the tip included.
    pub fn size(self) -> u64
        requires { IsView (non_zero_u16_get self.page_size) self.tip.now }
        ensures { result ≡ tail_size
            (tail_at self.entry.page_size self.entry.id self.entry.tip.now) }
    {
        self.tip.size()
    }

    /// How many of the bytes of a range lie below the tip.
    pub(crate) fn len_below(self, offset: u64, len: usize) -> usize
        requires { IsView (non_zero_u16_get self.page_size) self.tip.now }
        ensures { let t = tail_at self.entry.page_size self.entry.id self.entry.tip.now in
            result ≡ min len (t.full_pages * t.page_size - offset) }
    {
        (len as u64).min(self.tip.offset().saturating_sub(offset)) as usize
    }
}

impl<B: Blob, H: Sum> View<'_, B, H> {
    /// Copies the logical bytes from `offset` on into `buf`, as many as `buf` has room for. Those
    /// below the tip come from pages that the cache holds, else from the blob, by one read for each
    /// page. The others come from memory. Where the cache holds all pages that are needed the call
    /// takes no memory and asks no device.
    ///
    /// `OffsetOverflow` where the range's end passes the greatest `u64`, else
    /// `BlobInsufficientLength` where it passes the size, both before the device or memory is
    /// asked. `ReadFailed` where the device failed, `InvalidChecksum` where a page isn't full,
    /// `OutOfMemory` where memory was refused. After an error `buf` may hold anything.
    pub fn read_into(
        self,
        blob: &mut B,
        cache: &mut CacheRef,
        buf: &mut [u8],
        offset: u64,
    ) -> Result<(), Error>
        requires view { IsView (non_zero_u16_get self.page_size) self.tip.now }
        requires can { let t = tail_at self.page_size self.id self.tip.now in
            CanRead t cache.old (B.life blob.old).present }
        ensures goes { let t = tail_at self.entry.page_size self.entry.id self.entry.tip.now in
            let old = B.life blob.old in let new = B.life blob.new in
            ReadIntoGoes H.sum_of t cache.old offset buf.old buf.new old new result }
        ensures leaves { let t = tail_at self.entry.page_size self.entry.id self.entry.tip.now in
            ReadLeaves H.sum_of t cache.old cache.new (B.life blob.old) (B.life blob.new) }
        ensures costs { let t = tail_at self.entry.page_size self.entry.id self.entry.tip.now in
            let old = B.life blob.old in let new = B.life blob.new in
            ReadCosts H.sum_of t (offset, length buf.old) cache.old cache.new old new result }
    {
        let end = offset
            .checked_add(buf.len() as u64)
            .ok_or(Error::OffsetOverflow)?;
        if end > self.size() {
            return Err(Error::BlobInsufficientLength);
        }
        let below = self.len_below(offset, buf.len());
        self.read_below(blob, cache, &mut buf[..below], offset)?;
        self.copy_tip(&mut buf[below..], offset + below as u64);
        Ok(())
    }

    /// The `len` bytes from `offset` on, read as [`View::read_into`] reads them, with its errors.
    pub fn read_at(
        self,
        blob: &mut B,
        cache: &mut CacheRef,
        offset: u64,
        len: usize,
    ) -> Result<IoBufs, Error>
        requires view { IsView (non_zero_u16_get self.page_size) self.tip.now }
        requires can { let t = tail_at self.page_size self.id self.tip.now in
            CanRead t cache.old (B.life blob.old).present }
        ensures goes { let t = tail_at self.entry.page_size self.entry.id self.entry.tip.now in
            let old = B.life blob.old in let new = B.life blob.new in
            ReadGoes H.sum_of t cache.old (offset, len) concat old new result }
        ensures leaves { let t = tail_at self.entry.page_size self.entry.id self.entry.tip.now in
            ReadLeaves H.sum_of t cache.old cache.new (B.life blob.old) (B.life blob.new) }
        ensures costs { let t = tail_at self.entry.page_size self.entry.id self.entry.tip.now in
            let old = B.life blob.old in let new = B.life blob.new in
            ReadCosts H.sum_of t (offset, len) cache.old cache.new old new result }
    {
        let Some(end) = offset.checked_add(len as u64) else {
            return Err(Error::OffsetOverflow);
        };
        if self.size() < end {
            return Err(Error::BlobInsufficientLength);
        }
        let mut bytes = Vec::new(self.alloc);
        bytes.resize(len, 0)?;
        self.read_into(blob, cache, &mut bytes, offset)?;
        let mut bufs = IoBufs::new(self.alloc);
        bufs.append_front(bytes, len)?;
        Ok(bufs)
    }

    /// Reads as many bytes from `offset` on as there are, at most `len`, in place of what `bytes`
    /// held. Answers them and their number, which is at least 1, unless `len` is 0: that is
    /// answered at any offset.
    ///
    /// `BlobInsufficientLength` where `offset` is at or after the end and `len` isn't 0, before the
    /// device or memory is asked. `ReadFailed`, `InvalidChecksum` and `OutOfMemory` as
    /// [`View::read_into`] answers them.
    pub fn read_up_to(
        self,
        blob: &mut B,
        cache: &mut CacheRef,
        offset: u64,
        len: usize,
        mut bytes: Vec<u8>,
    ) -> Result<(Vec<u8>, usize), Error>
        requires view { IsView (non_zero_u16_get self.page_size) self.tip.now }
        requires can { let t = tail_at self.page_size self.id self.tip.now in
            CanRead t cache.old (B.life blob.old).present }
        ensures goes { let t = tail_at self.entry.page_size self.entry.id self.entry.tip.now in
            let old = B.life blob.old in let new = B.life blob.new in
            ReadUpToGoes H.sum_of t cache.old offset len old new result }
        ensures leaves { let t = tail_at self.entry.page_size self.entry.id self.entry.tip.now in
            ReadLeaves H.sum_of t cache.old cache.new (B.life blob.old) (B.life blob.new) }
        ensures costs { let t = tail_at self.entry.page_size self.entry.id self.entry.tip.now in
            let old = B.life blob.old in let new = B.life blob.new in
            ReadCosts H.sum_of t (range_up_to t offset len) cache.old cache.new old new result }
    {
        bytes.clear();
        if len == 0 {
            return Ok((bytes, 0));
        }
        let size = self.size();
        if offset >= size {
            return Err(Error::BlobInsufficientLength);
        }
        let count = (len as u64).min(size - offset) as usize;
        bytes.resize(count, 0)?;
        self.read_into(blob, cache, &mut bytes, offset)?;
        Ok((bytes, count))
    }
}

impl<B, H> View<'_, B, H> {
    /// Copies the bytes from `offset` on into `buf`. Any there are lie after the full pages.
    pub(crate) fn copy_tip(self, buf: &mut [u8], offset: u64)
        requires view { IsView (non_zero_u16_get self.page_size) self.tip.now }
        requires after { let t = tail_at self.page_size self.id self.tip.now in
            0 < length buf.old → t.full_pages * t.page_size ≤ offset }
        requires within { let t = tail_at self.page_size self.id self.tip.now in
            offset + length buf.old ≤ tail_size t }
        ensures { let t = tail_at self.entry.page_size self.entry.id self.entry.tip.now in
            let skip = offset - t.full_pages * t.page_size in
            buf.new ≡ take (length buf.old) (drop skip t.bytes) }
    {
        if !buf.is_empty() {
            self.tip.copy_to((offset - self.tip.offset()) as usize, buf);
        }
    }

    /// Copies the bytes from `offset` on into `buf`, if the cache holds their pages, and answers
    /// whether it does. They all lie below the tip, or there are none.
    pub(crate) fn copy_held(self, cache: &CacheRef, buf: &mut [u8], offset: u64) -> bool
        requires view { IsView (non_zero_u16_get self.page_size) self.tip.now }
        requires page_size { cache.now.page_size ≡ non_zero_u16_get self.page_size }
        requires below { let t = tail_at self.page_size self.id self.tip.now in
            0 < length buf.old → offset + length buf.old ≤ t.full_pages * t.page_size }
        ensures tries { let t = tail_at self.entry.page_size self.entry.id self.entry.tip.now in
            TriesBelow t (offset, length buf.old) cache.now buf.new result }
        ensures size { length buf.new ≡ length buf.old }
    {
        cache.read_cached(self.id, buf, offset) == buf.len()
    }

    /// Copies the logical bytes from `offset` on into `buf`, as many as `buf` has room for, if that
    /// needs no device: they lie within the size, and the cache holds the pages of those below the
    /// tip. Answers whether it did. At `false` `buf` may hold anything. The call takes no memory.
    pub fn try_read_sync_into(self, cache: &CacheRef, buf: &mut [u8], offset: u64) -> bool
        requires view { IsView (non_zero_u16_get self.page_size) self.tip.now }
        requires page_size { cache.now.page_size ≡ non_zero_u16_get self.page_size }
        ensures goes { let t = tail_at self.entry.page_size self.entry.id self.entry.tip.now in
            TryReadGoes t (offset, length buf.old) cache.now buf.new result }
        ensures size { length buf.new ≡ length buf.old }
    {
        let size = self.size();
        let Some(end) = offset.checked_add(buf.len() as u64) else {
            return false;
        };
        if end > size {
            return false;
        }
        let below = self.len_below(offset, buf.len());
        if !self.copy_held(cache, &mut buf[..below], offset) {
            return false;
        }
        self.copy_tip(&mut buf[below..], offset + below as u64);
        true
    }
}
