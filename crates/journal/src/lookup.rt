// The frame at an offset of a blob's content, read through a view: that of a journal's writer, or
// of a snapshot.
ghost use Rattle.std.specs.Prelude.{◌≡◌, ◌+◌, ◌^◌, ◌<◌, ◌≤◌, min};
ghost use Rattle.std.specs.Int.NonZero.{non_zero_u16_get};
ghost use Rattle.paged_read.specs.Tail.{IsView, logical_bytes, tail_at, tail_size};
ghost use Rattle.journal.specs.Journal.{MeasuresFrame, ReadRecordGoes, ReadsContent, ReadsFrame};
ghost use Rattle.journal.specs.Reader.{IsOpenSnapshot, ViewLeaves};
ghost use Rattle.journal.specs.Costs.{FrameCosts, RangeCosts};

use crate::frame::{AFTER, Found, IN_FRONT, record_at, record_len_of};
use bytes::Bytes;
use cache::CacheRef;
use disk::{Blob, Error, IoBuf};
use page::Sum;
use paged::View;
use std::alloc::Global;

// Reads bytes of the content, in one buffer.
fn read_bytes<B: Blob, H: Sum>(
    alloc: Global,
    view: View<'_, B, H>,
    blob: &mut B,
    cache: &mut CacheRef,
    offset: u64,
    len: usize,
) -> Result<IoBuf, Error>
    requires view { IsView (non_zero_u16_get view.page_size) view.tip.now }
    requires opened { let t = tail_at view.page_size view.id view.tip.now in
        IsOpenSnapshot H.sum_of t cache.old (B.life blob.old) }
    requires within { let t = tail_at view.page_size view.id view.tip.now in
        offset + len ≤ tail_size t }
    requires fits { offset + len < 2 ^ 64 }
    ensures reads { let t = tail_at view.entry.page_size view.entry.id view.entry.tip.now in
        let old = B.life blob.old in let new = B.life blob.new in
        ReadsContent (logical_bytes t old.present.readable) offset len old new result }
    ensures leaves { let t = tail_at view.entry.page_size view.entry.id view.entry.tip.now in
        ViewLeaves H.sum_of t cache.old cache.new (B.life blob.old) (B.life blob.new) }
    ensures costs { let t = tail_at view.entry.page_size view.entry.id view.entry.tip.now in
        let old = B.life blob.old in let new = B.life blob.new in
        RangeCosts t (offset, len) cache.old cache.new old new }
{
    let mut bytes = Vec::new(alloc);
    bytes.resize(len, 0)?;
    match view.read_into(blob, cache, &mut bytes, offset) {
        Ok(()) => Ok(IoBuf::from(Bytes::from_vec(bytes)?)),
        Err(error) => Err(error),
    }
}

// How many bytes the frame that begins at an offset has, of the `rest` bytes that are left there.
// The length in the frame is read without memory.
fn frame_len_at<B: Blob, H: Sum>(
    view: View<'_, B, H>,
    blob: &mut B,
    cache: &mut CacheRef,
    offset: u64,
    rest: u64,
) -> Result<u64, Error>
    requires view { IsView (non_zero_u16_get view.page_size) view.tip.now }
    requires opened { let t = tail_at view.page_size view.id view.tip.now in
        IsOpenSnapshot H.sum_of t cache.old (B.life blob.old) }
    requires within { let t = tail_at view.page_size view.id view.tip.now in
        offset + rest ≡ tail_size t }
    requires fits { offset + rest < 2 ^ 64 }
    ensures measures { let t = tail_at view.entry.page_size view.entry.id view.entry.tip.now in
        let old = B.life blob.old in let new = B.life blob.new in
        MeasuresFrame (logical_bytes t old.present.readable) offset rest old new result }
    ensures leaves { let t = tail_at view.entry.page_size view.entry.id view.entry.tip.now in
        ViewLeaves H.sum_of t cache.old cache.new (B.life blob.old) (B.life blob.new) }
    ensures costs { let t = tail_at view.entry.page_size view.entry.id view.entry.tip.now in
        let old = B.life blob.old in let new = B.life blob.new in
        RangeCosts t (offset, min 2 rest) cache.old cache.new old new }
{
    let mut head = [0; IN_FRONT];
    let front = &mut head[..rest.min(IN_FRONT as u64) as usize];
    match view.read_into(blob, cache, front, offset) {
        Ok(()) => Ok(rest.min((IN_FRONT + record_len_of(front) + AFTER) as u64)),
        Err(error) => Err(error),
    }
}

// The bytes of the frame that begins at an offset, from which on `rest` bytes are left.
fn read_frame<B: Blob, H: Sum>(
    alloc: Global,
    view: View<'_, B, H>,
    blob: &mut B,
    cache: &mut CacheRef,
    offset: u64,
    rest: u64,
) -> Result<IoBuf, Error>
    requires view { IsView (non_zero_u16_get view.page_size) view.tip.now }
    requires opened { let t = tail_at view.page_size view.id view.tip.now in
        IsOpenSnapshot H.sum_of t cache.old (B.life blob.old) }
    requires within { let t = tail_at view.page_size view.id view.tip.now in
        offset + rest ≡ tail_size t }
    requires fits { offset + rest < 2 ^ 64 }
    requires some { 0 < rest }
    ensures reads { let t = tail_at view.entry.page_size view.entry.id view.entry.tip.now in
        let old = B.life blob.old in let new = B.life blob.new in
        ReadsFrame (logical_bytes t old.present.readable) offset rest old new result }
    ensures leaves { let t = tail_at view.entry.page_size view.entry.id view.entry.tip.now in
        ViewLeaves H.sum_of t cache.old cache.new (B.life blob.old) (B.life blob.new) }
    ensures costs { let t = tail_at view.entry.page_size view.entry.id view.entry.tip.now in
        let old = B.life blob.old in let new = B.life blob.new in
        FrameCosts t (logical_bytes t old.present.readable) offset cache.old cache.new old new }
{
    let len = frame_len_at(view, blob, cache, offset, rest)?;
    read_bytes(alloc, view, blob, cache, offset, len as usize)
}

/// The frame that begins at an offset, or none at the end and after it.
///
/// The device is asked how long the frame is before memory is asked for. `ReadFailed` where a read
/// of the device failed. `OutOfMemory` where memory was refused, perhaps after reads of the device,
/// of which none failed.
pub fn frame_at<B: Blob, H: Sum, R: Sum>(
    alloc: Global,
    view: View<'_, B, H>,
    blob: &mut B,
    cache: &mut CacheRef,
    offset: u64,
) -> Result<Option<Found>, Error>
    requires view { IsView (non_zero_u16_get view.page_size) view.tip.now }
    requires readable { let t = tail_at view.page_size view.id view.tip.now in
        IsOpenSnapshot H.sum_of t cache.old (B.life blob.old) }
    ensures goes { let t = tail_at view.entry.page_size view.entry.id view.entry.tip.now in
        let old = B.life blob.old in let new = B.life blob.new in
        ReadRecordGoes R.sum_of (logical_bytes t old.present.readable) offset old new result }
    ensures leaves { let t = tail_at view.entry.page_size view.entry.id view.entry.tip.now in
        ViewLeaves H.sum_of t cache.old cache.new (B.life blob.old) (B.life blob.new) }
    ensures costs { let t = tail_at view.entry.page_size view.entry.id view.entry.tip.now in
        let old = B.life blob.old in let new = B.life blob.new in
        FrameCosts t (logical_bytes t old.present.readable) offset cache.old cache.new old new }
{
    let size = view.size();
    if size <= offset {
        return Ok(None);
    }
    let framed = read_frame(alloc, view, blob, cache, offset, size - offset)?;
    let bytes = record_at::<R>(&framed)?;
    Ok(Some(Found {
        bytes,
        end: offset + framed.len() as u64,
    }))
}
