// Reads of many ranges.
ghost use Rattle.std.specs.Prelude.{◌≡◌, ◌≢◌, IfErr, false, ◌≤◌, ◌<◌, ◌+◌, ◌*◌, ◌%◌, ◌^◌, ◌++◌, ◌∷◌, [], OnOk, IfOk};
ghost use Rattle.std.specs.Prelude.{IsOkUnless, length, sum_by, ℕ, List, if◌then◌else◌};
ghost use Rattle.std.specs.List.{range_with_len};
ghost use Rattle.std.specs.Int.NonZero.{non_zero_u16_get, non_zero_usize_get};
ghost use Rattle.disk.specs.Disk.{Disk};
ghost use Rattle.page.specs.Geometry.{AreInOrder, EndWithin, RangesGo};
ghost use Rattle.paged_read.specs.Tail.{tail_at, IsView, tail_size, logical_bytes, CanRead};
ghost use Rattle.paged_read.specs.Ranges.{is_served, missing, served_ranges, missed_from};
ghost use Rattle.paged_read.specs.Ranges.{HasServed};
ghost use Rattle.paged_read.specs.Reads.{ReadLeaves, ReadManyCosts, ReadManyGoes, ReadRangesGoes};
ghost use Rattle.paged_read.specs.Reads.{TryReadManyGoes};
ghost use Rattle.paged_read.specs.Batch.{Gathered, ranges_of};

use crate::View;
use crate::batch::Batch;
use cache::{CacheRef, Piece};
use disk::{Blob, Error};
use page::{Sum, validate_read_ranges};
use std::alloc::Global;
use std::num::NonZeroUsize;

impl<B, H> View<'_, B, H> {
    /// How many of the bytes from `at` to before `end` lie in the page of `at`, if `at` is below
    /// the tip. If it isn't, all of them.
    fn part_len(self, at: u64, end: u64) -> usize
        requires { at < end }
        ensures some { 0 < result }
        ensures ends { at + result ≤ end }
        ensures within { let P = non_zero_u16_get self.entry.page_size in
            at < self.entry.tip.now.offset → at % P + result ≤ P }
    {
        if at >= self.tip.offset() {
            return (end - at) as usize;
        }
        let page_size = u64::from(self.page_size.get());
        (page_size - at % page_size).min(end - at) as usize
    }

    /// Copies some bytes of one page, or of the tip, to an offset of the buffer, if memory or the
    /// cache has them, and answers whether it did. Else the call adds them to the batch.
    /// `OutOfMemory` alone.
    fn gather_part(
        self,
        cache: &CacheRef,
        batch: &mut Batch,
        buf: &mut [u8],
        buf_offset: usize,
        offset: u64,
        len: usize,
    ) -> Result<bool, Error>
        requires view { IsView (non_zero_u16_get self.page_size) self.tip.now }
        requires page_size { cache.now.page_size ≡ non_zero_u16_get self.page_size }
        requires some { 0 < len }
        requires room { buf_offset + len ≤ length buf.old }
        requires within { let t = tail_at self.page_size self.id self.tip.now in
            offset < t.full_pages * t.page_size → offset % t.page_size + len ≤ t.page_size }
        requires ends { offset + len ≤ tail_size (tail_at self.page_size self.id self.tip.now) }
        ensures served { let t = tail_at self.entry.page_size self.entry.id self.entry.tip.now in
            IfOk result (λ answer. answer ≡ is_served cache.now t (offset, len)) }
        ensures gathered { let t = tail_at self.entry.page_size self.entry.id self.entry.tip.now in
            OnOk result ((ranges : List (ℕ × ℕ)) → EndWithin offset ranges
            → Gathered cache.now t ranges buf_offset batch.old.pages.items batch.old.lacks.items
            buf.old
            → Gathered cache.now t (ranges ++ (offset, len) ∷ []) (buf_offset + len)
            batch.new.pages.items batch.new.lacks.items buf.new) }
        ensures size { length buf.new ≡ length buf.old }
        ensures count { batch.new.served ≡ batch.old.served }
        ensures refused { let t = tail_at self.entry.page_size self.entry.id self.entry.tip.now in
            IfErr result (λ e. is_served cache.now t (offset, len) ≡ false) }
        ensures err { IsOkUnless result Error.OutOfMemory }
    {
        if self.try_read_sync_into(cache, &mut buf[buf_offset..buf_offset + len], offset) {
            return Ok(true);
        }
        let page_size = u64::from(self.page_size.get());
        batch.add(Piece {
            page: offset / page_size,
            skip: (offset % page_size) as usize,
            place: buf_offset,
            len,
        })?;
        Ok(false)
    }

    /// Copies what memory and the cache have of a range to an offset of the buffer, and adds the
    /// rest to the batch. Answers whether there was no rest. `OutOfMemory` alone.
    fn gather_range(
        self,
        cache: &CacheRef,
        batch: &mut Batch,
        buf: &mut [u8],
        buf_offset: usize,
        offset: u64,
        len: usize,
    ) -> Result<bool, Error>
        requires view { IsView (non_zero_u16_get self.page_size) self.tip.now }
        requires page_size { cache.now.page_size ≡ non_zero_u16_get self.page_size }
        requires room { buf_offset + len ≤ length buf.old }
        requires addressable { tail_size (tail_at self.page_size self.id self.tip.now) < 2 ^ 64 }
        requires ends { offset + len ≤ tail_size (tail_at self.page_size self.id self.tip.now) }
        ensures served { let t = tail_at self.entry.page_size self.entry.id self.entry.tip.now in
            IfOk result (λ answer. answer ≡ is_served cache.now t (offset, len)) }
        ensures gathered { let t = tail_at self.entry.page_size self.entry.id self.entry.tip.now in
            OnOk result ((ranges : List (ℕ × ℕ)) → EndWithin offset ranges
            → Gathered cache.now t ranges buf_offset batch.old.pages.items batch.old.lacks.items
            buf.old
            → Gathered cache.now t (ranges ++ (offset, len) ∷ []) (buf_offset + len)
            batch.new.pages.items batch.new.lacks.items buf.new) }
        ensures size { length buf.new ≡ length buf.old }
        ensures count { batch.new.served ≡ batch.old.served }
        ensures refused { let t = tail_at self.entry.page_size self.entry.id self.entry.tip.now in
            IfErr result (λ e. is_served cache.now t (offset, len) ≡ false) }
        ensures err { IsOkUnless result Error.OutOfMemory }
    {
        let end = offset + len as u64;
        let mut at = offset;
        let mut served = true;
        while at < end {
            let part = self.part_len(at, end);
            let done = (at - offset) as usize;
            served &= self.gather_part(cache, batch, buf, buf_offset + done, at, part)?;
            at += part as u64;
        }
        Ok(served)
    }

    /// Copies what memory and the cache have of the ranges to their places in the buffer, and
    /// answers the rest. `OutOfMemory` alone.
    pub(crate) fn gather(
        self,
        cache: &CacheRef,
        buf: &mut [u8],
        ranges: &[(u64, usize)],
    ) -> Result<Batch, Error>
        requires view { IsView (non_zero_u16_get self.page_size) self.tip.now }
        requires page_size { cache.now.page_size ≡ non_zero_u16_get self.page_size }
        requires in_order { AreInOrder ranges.now }
        requires filled { length buf.old ≡ sum_by (λ range. range.1) ranges.now }
        requires addressable { tail_size (tail_at self.page_size self.id self.tip.now) < 2 ^ 64 }
        requires ends { EndWithin (tail_size (tail_at self.page_size self.id self.tip.now))
            ranges.now }
        ensures gathered { let t = tail_at self.entry.page_size self.entry.id self.entry.tip.now in
            IfOk result (λ batch. Gathered cache.now t ranges.now (length buf.old)
            batch.pages.items batch.lacks.items buf.new) }
        ensures served { let t = tail_at self.entry.page_size self.entry.id self.entry.tip.now in
            IfOk result (λ batch. batch.served ≡ served_ranges cache.now t ranges.now) }
        ensures size { length buf.new ≡ length buf.old }
        ensures refused { let t = tail_at self.entry.page_size self.entry.id self.entry.tip.now in
            IfErr result (λ e. missing cache.now t ranges.now ≢ []) }
        ensures err { IsOkUnless result Error.OutOfMemory }
    {
        let mut batch = Batch::new(self.alloc);
        let mut buf_offset = 0;
        for &(offset, len) in ranges {
            let served = self.gather_range(cache, &mut batch, buf, buf_offset, offset, len)?;
            batch.count(served);
            buf_offset += len;
        }
        Ok(batch)
    }
}

/// The numbers below `count`. `OutOfMemory` alone.
fn all_below(alloc: Global, count: usize) -> Result<Vec<usize>, Error>
    ensures items { IfOk result (λ all. all.items ≡ range_with_len 0 count) }
    ensures err { IsOkUnless result Error.OutOfMemory }
{
    let mut all = Vec::new(alloc);
    for index in 0..count {
        all.push(index)?;
    }
    Ok(all)
}

/// Adds the number of a range, unless it is served. `OutOfMemory` alone.
fn note(missed: &mut Vec<usize>, index: usize, served: bool) -> Result<(), Error>
    ensures ok { OnOk result (missed.new.items
        ≡ missed.old.items ++ (if served then [] else index ∷ [])) }
    ensures err { IsOkUnless result Error.OutOfMemory }
{
    if !served {
        missed.push(index)?;
    }
    Ok(())
}

/// The ranges of one length at these offsets. `OutOfMemory` alone.
fn ranges_of(alloc: Global, offsets: &[u64], len: usize) -> Result<Vec<(u64, usize)>, Error>
    ensures items { IfOk result (λ ranges. ranges.items ≡ ranges_of len offsets.now) }
    ensures err { IsOkUnless result Error.OutOfMemory }
{
    let mut ranges = Vec::with_capacity(alloc, offsets.len())?;
    for offset in offsets {
        ranges.push((*offset, len))?;
    }
    Ok(ranges)
}

/// Checks that ranges of one length lie within a blob of `size` bytes, one by one.
fn validate_offsets(offsets: &[u64], len: usize, size: u64) -> Result<(), Error>
    ensures { RangesGo size (ranges_of len offsets.now) result }
{
    for offset in offsets {
        validate_read_ranges(len, &[(*offset, len)], size)?;
    }
    Ok(())
}

impl<B, H> View<'_, B, H> {
    /// Copies each of the ranges that needs no device to its offset, and answers the numbers of the
    /// others. `OutOfMemory` alone.
    fn try_each(
        self,
        cache: &CacheRef,
        buf: &mut [u8],
        ranges: &[(u64, usize)],
    ) -> Result<Vec<usize>, Error>
        requires view { IsView (non_zero_u16_get self.page_size) self.tip.now }
        requires page_size { cache.now.page_size ≡ non_zero_u16_get self.page_size }
        requires filled { length buf.old ≡ sum_by (λ range. range.1) ranges.now }
        requires ends { EndWithin (tail_size (tail_at self.page_size self.id self.tip.now))
            ranges.now }
        ensures missed { let t = tail_at self.entry.page_size self.entry.id self.entry.tip.now in
            IfOk result (λ missed. missed.items ≡ missed_from 0 cache.now t ranges.now) }
        ensures served { let t = tail_at self.entry.page_size self.entry.id self.entry.tip.now in
            OnOk result ((d : Disk) → CanRead t cache.now d
            → HasServed cache.now t ranges.now (logical_bytes t d.readable) buf.new) }
        ensures size { length buf.new ≡ length buf.old }
        ensures err { IsOkUnless result Error.OutOfMemory }
    {
        let mut missed = Vec::new(self.alloc);
        let mut buf_offset = 0;
        for index in 0..ranges.len() {
            let (offset, len) = ranges[index];
            let served = self.try_read_sync_into(
                cache,
                &mut buf[buf_offset..buf_offset + len],
                offset,
            );
            note(&mut missed, index, served)?;
            buf_offset += len;
        }
        Ok(missed)
    }

    /// Copies those of these ranges, each an offset and a length in logical bytes, that need no
    /// device to their places in the buffer, one range after the other. Answers the numbers of the
    /// other ranges, rising, or of all ranges if one of them can't be read. The places of the
    /// ranges that it answers may hold anything. The only error is `OutOfMemory`.
    ///
    /// The ranges are in order and don't overlap, and fill the buffer.
    pub fn try_read_ranges_sync_into(
        self,
        cache: &CacheRef,
        buf: &mut [u8],
        ranges: &[(u64, usize)],
    ) -> Result<Vec<usize>, Error>
        requires view { IsView (non_zero_u16_get self.page_size) self.tip.now }
        requires page_size { cache.now.page_size ≡ non_zero_u16_get self.page_size }
        requires asked { AreInOrder ranges.now
            × (length buf.old ≡ sum_by (λ range. range.1) ranges.now) }
        ensures goes { let t = tail_at self.entry.page_size self.entry.id self.entry.tip.now in
            TryReadManyGoes t ranges.now cache.now buf.old buf.new result }
    {
        if validate_read_ranges(buf.len(), ranges, self.size()).is_err() {
            return all_below(self.alloc, ranges.len());
        }
        self.try_each(cache, buf, ranges)
    }

    /// [`try_read_ranges_sync_into`](Self::try_read_ranges_sync_into) for ranges of `len` bytes at
    /// these offsets.
    pub fn try_read_many_sync_into(
        self,
        cache: &CacheRef,
        buf: &mut [u8],
        offsets: &[u64],
        len: NonZeroUsize,
    ) -> Result<Vec<usize>, Error>
        requires view { IsView (non_zero_u16_get self.page_size) self.tip.now }
        requires page_size { cache.now.page_size ≡ non_zero_u16_get self.page_size }
        requires asked { AreInOrder (ranges_of (non_zero_usize_get len) offsets.now)
            × (length buf.old ≡ length offsets.now * non_zero_usize_get len) }
        ensures goes { let t = tail_at self.entry.page_size self.entry.id self.entry.tip.now in
            let ranges = ranges_of (non_zero_usize_get len) offsets.now in
            TryReadManyGoes t ranges cache.now buf.old buf.new result }
    {
        let ranges = ranges_of(self.alloc, offsets, len.get())?;
        self.try_read_ranges_sync_into(cache, buf, &ranges)
    }
}

impl<B: Blob, H: Sum> View<'_, B, H> {
    /// Reads the ranges, each an offset and a length in logical bytes, to their places in the
    /// buffer, one after the other. Answers how many of them needed no device: empty ones count.
    ///
    /// The ranges are in order and don't overlap, and fill the buffer. Bytes after the full pages
    /// come from memory, and those of cached pages from the cache. The other pages are read in one
    /// call of the device, each once, and put in the cache as they are delivered. Where the cache
    /// holds all pages of the ranges the call takes no memory.
    ///
    /// The first range that can't be read decides, before memory or the device is asked for:
    /// `OffsetOverflow` where its end passes the greatest `u64`, else `BlobInsufficientLength`
    /// where it passes the size. `ReadFailed` where the device failed, `InvalidChecksum` where a
    /// page isn't full, `OutOfMemory` where memory was refused. After an error the buffer may hold
    /// anything. The pages that were delivered and found full before the error were put in the
    /// cache, and no others.
    pub fn read_ranges_into(
        self,
        blob: &mut B,
        cache: &mut CacheRef,
        buf: &mut [u8],
        ranges: &[(u64, usize)],
    ) -> Result<usize, Error>
        requires view { IsView (non_zero_u16_get self.page_size) self.tip.now }
        requires can { let t = tail_at self.page_size self.id self.tip.now in
            CanRead t cache.old (B.life blob.old).present }
        requires asked { AreInOrder ranges.now
            × (length buf.old ≡ sum_by (λ range. range.1) ranges.now) }
        ensures goes { let t = tail_at self.entry.page_size self.entry.id self.entry.tip.now in
            let old = B.life blob.old in let new = B.life blob.new in
            ReadRangesGoes H.sum_of t cache.old ranges.now buf.old buf.new old new result }
        ensures leaves { let t = tail_at self.entry.page_size self.entry.id self.entry.tip.now in
            ReadLeaves H.sum_of t cache.old cache.new (B.life blob.old) (B.life blob.new) }
        ensures costs { let t = tail_at self.entry.page_size self.entry.id self.entry.tip.now in
            let old = B.life blob.old in let new = B.life blob.new in
            ReadManyCosts H.sum_of t ranges.now cache.old cache.new old new result }
    {
        validate_read_ranges(buf.len(), ranges, self.size())?;
        let batch = self.gather(cache, buf, ranges)?;
        self.read_lacks(blob, cache, buf, &batch)?;
        Ok(batch.served)
    }

    /// [`read_ranges_into`](Self::read_ranges_into) for ranges of `len` bytes at these offsets. It
    /// takes memory for the ranges.
    pub fn read_many_into(
        self,
        blob: &mut B,
        cache: &mut CacheRef,
        buf: &mut [u8],
        offsets: &[u64],
        len: NonZeroUsize,
    ) -> Result<usize, Error>
        requires view { IsView (non_zero_u16_get self.page_size) self.tip.now }
        requires can { let t = tail_at self.page_size self.id self.tip.now in
            CanRead t cache.old (B.life blob.old).present }
        requires asked { AreInOrder (ranges_of (non_zero_usize_get len) offsets.now)
            × (length buf.old ≡ length offsets.now * non_zero_usize_get len) }
        ensures goes { let t = tail_at self.entry.page_size self.entry.id self.entry.tip.now in
            let ranges = ranges_of (non_zero_usize_get len) offsets.now in
            let old = B.life blob.old in let new = B.life blob.new in
            ReadManyGoes H.sum_of t cache.old ranges buf.old buf.new old new result }
        ensures leaves { let t = tail_at self.entry.page_size self.entry.id self.entry.tip.now in
            ReadLeaves H.sum_of t cache.old cache.new (B.life blob.old) (B.life blob.new) }
        ensures costs { let t = tail_at self.entry.page_size self.entry.id self.entry.tip.now in
            let ranges = ranges_of (non_zero_usize_get len) offsets.now in
            let old = B.life blob.old in let new = B.life blob.new in
            ReadManyCosts H.sum_of t ranges cache.old cache.new old new result }
    {
        validate_offsets(offsets, len.get(), self.size())?;
        let ranges = ranges_of(self.alloc, offsets, len.get())?;
        self.read_ranges_into(blob, cache, buf, &ranges)
    }
}
