// Steps that read.
ghost use Rattle.std.specs.Prelude.{◌≡◌, ◌≤◌, ◌+◌, IfSome, IfOk, IsOkUnless, length, IsTrue, ◌↔◌};
ghost use Rattle.std.specs.Prelude.{IfErr, is_some, sum_by};
ghost use Rattle.std.specs.Int.NonZero.{non_zero_usize_get};
ghost use Rattle.std.specs.List.{range_with_len};
ghost use Rattle.page.specs.Geometry.{AreInOrder};
ghost use Rattle.cache.specs.Pages.{IsFresh};
ghost use Rattle.writer_state.specs.Sound.{IsSound};
ghost use Rattle.paged_read.specs.Tail.{CanRead};
ghost use Rattle.paged_read.specs.Ranges.{LeavesAll, Misses};
ghost use Rattle.paged.specs.Caches.{tail_of};
ghost use Rattle.session.specs.Run.{FitsOn, HasSoundWriter, FitsWriter, fit_together};
ghost use Rattle.paged_read.specs.Replay.{LeavesAllReplays};
ghost use Rattle.paged_read.specs.Snapshots.{LeavesOthers, LeavesTails};
ghost use Rattle.session.specs.Calls.{LeavesTaken};
ghost use Rattle.cache.specs.CacheState.{CacheState};
ghost use Rattle.session.specs.Calls.{DidRead, DidReadUpTo, DidScan, DidTryRead, RefusesRoom};
ghost use Rattle.session.specs.Calls.{ReadRangesSays, DidReadRanges, DidTryReadRanges};

use crate::held::Held;
use crate::steps::Reply;
use cache::CacheRef;
use disk::{Blob, Error, ReadOptions};
use page::{Sum, validate_read_ranges};
use paged::Writer;
use std::alloc::Global;
use std::num::NonZeroUsize;

impl<B: Blob, H: Sum, Phase> Held<B, H, Phase> {
    pub(crate) fn read(&self, blob: &mut B, cache: &mut CacheRef, offset: u64, len: usize) -> Reply
        requires sound { HasSoundWriter H.sum_of self.now (B.life blob.old).present }
        requires cached { FitsWriter self.now cache.old (B.life blob.old).present }
        ensures goes { let old = B.life blob.old in let new = B.life blob.new in
            DidRead H.sum_of self.now cache.old cache.new offset len old new result }
        ensures cached { FitsWriter self.now cache.new (B.life blob.new).present }
        ensures fresh_ids { IsFresh cache.old → IsFresh cache.new }
        ensures tails { let old = B.life blob.old in let new = B.life blob.new in
            LeavesTaken H.sum_of self.now self.now cache.old cache.new old new }
    {
        let Some(writer) = &self.writer else {
            return Reply::Closed;
        };
        let mut bytes = match room_within(self.alloc, writer.size(), offset, len) {
            Ok(bytes) => bytes,
            Err(error) => return Reply::Fault(error),
        };
        match writer.read_into(blob, cache, &mut bytes, offset) {
            Ok(()) => Reply::Bytes(bytes),
            Err(error) => Reply::Fault(error),
        }
    }

    pub(crate) fn scan(
        &self,
        blob: &mut B,
        proven: u64,
        most: u64,
        buffer_size: NonZeroUsize,
    ) -> Reply
        requires sound { HasSoundWriter H.sum_of self.now (B.life blob.old).present }
        ensures goes { let old = B.life blob.old in let new = B.life blob.new in
            let size = non_zero_usize_get buffer_size in
            DidScan H.sum_of self.now proven most size old new result }
        ensures cached { let old = B.life blob.old in let new = B.life blob.new in
            FitsOn self.now self.now old.present new.present }
        ensures tails { let old = B.life blob.old in let new = B.life blob.new in
            (cache : CacheState) → LeavesTaken H.sum_of self.now self.now cache cache old new }
    {
        let Some(writer) = &self.writer else {
            return Reply::Closed;
        };
        let options = ReadOptions::default();
        match writer.recoverable_prefix_len_at_most(blob, proven, most, buffer_size, options) {
            Ok(len) => Reply::Length(len),
            Err(error) => Reply::Fault(error),
        }
    }

    pub(crate) fn read_up_to(
        &self,
        blob: &mut B,
        cache: &mut CacheRef,
        offset: u64,
        len: usize,
    ) -> Reply
        requires sound { HasSoundWriter H.sum_of self.now (B.life blob.old).present }
        requires cached { FitsWriter self.now cache.old (B.life blob.old).present }
        ensures goes { let old = B.life blob.old in let new = B.life blob.new in
            DidReadUpTo H.sum_of self.now cache.old cache.new offset len old new result }
        ensures cached { FitsWriter self.now cache.new (B.life blob.new).present }
        ensures fresh_ids { IsFresh cache.old → IsFresh cache.new }
        ensures tails { let old = B.life blob.old in let new = B.life blob.new in
            LeavesTaken H.sum_of self.now self.now cache.old cache.new old new }
    {
        let Some(writer) = &self.writer else {
            return Reply::Closed;
        };
        match writer.read_up_to(blob, cache, offset, len, Vec::new(self.alloc)) {
            Ok((bytes, _)) => Reply::Bytes(bytes),
            Err(error) => Reply::Fault(error),
        }
    }

    // Room for the bytes is made only where they are within the size.
    pub(crate) fn try_read(&self, cache: &CacheRef, offset: u64, len: usize) -> Reply
        requires { IfSome self.now (λ w. cache.now.page_size ≡ w.page_size) }
        ensures { DidTryRead self.now cache.now offset len result }
    {
        let Some(writer) = &self.writer else {
            return Reply::Closed;
        };
        if !ends_within(writer.size(), offset, len) {
            return Reply::Nothing;
        }
        let mut bytes = match room_for(self.alloc, len) {
            Ok(bytes) => bytes,
            Err(error) => return Reply::Fault(error),
        };
        if writer.try_read_sync_into(cache, &mut bytes, offset) {
            Reply::Bytes(bytes)
        } else {
            Reply::Nothing
        }
    }

    pub(crate) fn read_ranges(
        &self,
        blob: &mut B,
        cache: &mut CacheRef,
        ranges: &[(u64, usize)],
    ) -> Reply
        requires sound { HasSoundWriter H.sum_of self.now (B.life blob.old).present }
        requires cached { FitsWriter self.now cache.old (B.life blob.old).present }
        ensures goes { let old = B.life blob.old in let new = B.life blob.new in
            let fit = fit_together ranges.now in
            DidReadRanges H.sum_of self.now fit cache.old cache.new ranges.now old new result }
        ensures cached { FitsWriter self.now cache.new (B.life blob.new).present }
        ensures fresh_ids { IsFresh cache.old → IsFresh cache.new }
        ensures tails { let old = B.life blob.old in let new = B.life blob.new in
            LeavesTaken H.sum_of self.now self.now cache.old cache.new old new }
    {
        match (&self.writer, len_together(ranges)) {
            (None, _) => Reply::Closed,
            (_, None) => Reply::BadRanges,
            (Some(writer), Some(len)) => self.read_fitting(writer, blob, cache, ranges, len),
        }
    }

    // Room for the bytes is made only where they are within the size.
    fn read_fitting(
        &self,
        writer: &Writer<B, H, Phase>,
        blob: &mut B,
        cache: &mut CacheRef,
        ranges: &[(u64, usize)],
        len: usize,
    ) -> Reply
        requires sound { IsSound H.sum_of writer.now (B.life blob.old).present }
        requires can { CanRead (tail_of writer.now) cache.old (B.life blob.old).present }
        requires in_order { AreInOrder ranges.now }
        requires filled { len ≡ sum_by (λ range. range.1) ranges.now }
        ensures says { let old = B.life blob.old in let new = B.life blob.new in
            ReadRangesSays H.sum_of writer.now cache.old cache.new ranges.now old new result }
        ensures leaves { let old = B.life blob.old in let new = B.life blob.new in
            LeavesAll (tail_of writer.now) cache.old cache.new old new }
        ensures tails { let old = B.life blob.old in let new = B.life blob.new in
            LeavesTails H.sum_of writer.now.full_pages cache.old cache.new old new }
        ensures replays { LeavesAllReplays (B.life blob.old) (B.life blob.new) }
        ensures others { LeavesOthers writer.now.id cache.old cache.new }
    {
        if let Err(error) = validate_read_ranges(len, ranges, writer.size()) {
            return Reply::Fault(error);
        }
        let mut bytes = match room_for(self.alloc, len) {
            Ok(bytes) => bytes,
            Err(error) => return Reply::Fault(error),
        };
        match writer.read_ranges_into(blob, cache, &mut bytes, ranges) {
            Ok(count) => Reply::Served(count, bytes),
            Err(error) => Reply::Fault(error),
        }
    }

    pub(crate) fn try_read_ranges(&self, cache: &CacheRef, ranges: &[(u64, usize)]) -> Reply
        requires { IfSome self.now (λ w. cache.now.page_size ≡ w.page_size) }
        ensures { let fit = fit_together ranges.now in
            DidTryReadRanges self.now fit cache.now ranges.now result }
    {
        let Some(writer) = &self.writer else {
            return Reply::Closed;
        };
        let Some(len) = len_together(ranges) else {
            return Reply::BadRanges;
        };
        match self.missed(writer, cache, ranges, len) {
            Ok(numbers) => Reply::Missed(numbers),
            Err(error) => Reply::Fault(error),
        }
    }

    // If one range passes the end, all ranges are missed, and no room is made for the bytes.
    fn missed(
        &self,
        writer: &Writer<B, H, Phase>,
        cache: &CacheRef,
        ranges: &[(u64, usize)],
        len: usize,
    ) -> Result<Vec<usize>, Error>
        requires page_size { cache.now.page_size ≡ writer.now.page_size }
        requires in_order { AreInOrder ranges.now }
        requires filled { len ≡ sum_by (λ range. range.1) ranges.now }
        ensures missed { IfOk result (λ numbers.
            Misses (tail_of writer.now) ranges.now cache.now numbers.items) }
        ensures err { IsOkUnless result Error.OutOfMemory }
    {
        if validate_read_ranges(len, ranges, writer.size()).is_err() {
            return all_below(self.alloc, ranges.len());
        }
        let mut bytes = room_for(self.alloc, len)?;
        writer.try_read_ranges_sync_into(cache, &mut bytes, ranges)
    }
}

fn room_for(alloc: Global, len: usize) -> Result<Vec<u8>, Error>
    ensures len { IfOk result (λ bytes. length bytes.items ≡ len) }
    ensures err { IsOkUnless result Error.OutOfMemory }
{
    let mut bytes = Vec::new(alloc);
    bytes.resize(len, 0)?;
    Ok(bytes)
}

/// Room for the bytes of a range, made only where they are within the size.
pub(crate) fn room_within(
    alloc: Global,
    size: u64,
    offset: u64,
    len: usize,
) -> Result<Vec<u8>, Error>
    ensures len { IfOk result (λ bytes. length bytes.items ≡ len) }
    ensures err { IfErr result (RefusesRoom size offset len) }
{
    let Some(end) = offset.checked_add(len as u64) else {
        return Err(Error::OffsetOverflow);
    };
    if end > size {
        return Err(Error::BlobInsufficientLength);
    }
    room_for(alloc, len)
}

// Whether a range ends within so many bytes.
fn ends_within(size: u64, offset: u64, len: usize) -> bool
    ensures { IsTrue result ↔ (offset + len ≤ size) }
{
    match offset.checked_add(len as u64) {
        Some(end) => end <= size,
        None => false,
    }
}

// How many bytes the ranges have together; `None` where one call can't take them.
fn len_together(ranges: &[(u64, usize)]) -> Option<usize>
    ensures fit { is_some result ≡ fit_together ranges.now }
    ensures in_order { IfSome result (λ len. AreInOrder ranges.now) }
    ensures len { IfSome result (λ len. len ≡ sum_by (λ range. range.1) ranges.now) }
{
    let mut total = 0usize;
    let mut end = 0u128;
    for &(offset, len) in ranges {
        let begin = u128::from(offset);
        if begin < end {
            return None;
        }
        let Some(more) = total.checked_add(len) else {
            return None;
        };
        total = more;
        end = begin + len as u128;
    }
    Some(total)
}

// The numbers from 0 up to `count`, without `count`.
fn all_below(alloc: Global, count: usize) -> Result<Vec<usize>, Error>
    ensures items { IfOk result (λ all. all.items ≡ range_with_len 0 count) }
    ensures err { IsOkUnless result Error.OutOfMemory }
{
    let mut all = Vec::new(alloc);
    for index in 0..count {
        all.push(index)?;
    }
    Ok(all)
}
