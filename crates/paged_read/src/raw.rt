// Reads of a blob that nobody opened.
ghost use Rattle.std.specs.Prelude.{◌≡◌, ◌+◌, ◌*◌, ◌/◌, ◌<◌, ◌≤◌, ◌^◌, [], length, take, Ok, Err};
ghost use Rattle.std.specs.Prelude.{IfOk, ◌-◌};
ghost use Rattle.std.specs.Int.NonZero.{non_zero_u16_get};
ghost use Rattle.std.specs.List.{concat};
ghost use Rattle.page.specs.Page.{value_len};
ghost use Rattle.crash.specs.Looks.{Looked};
ghost use Rattle.paged_read.specs.Ranges.{page_at};
ghost use Rattle.paged_read.specs.RawReads.{after_told, EndsUnread, part_of, range_told};
ghost use Rattle.paged_read.specs.RawReads.{ReadsBefore, ReadsOne, ReadsPagesOf, ReadsTail};
ghost use Rattle.paged_read.specs.RawReads.{ReadsTold, tail_told, value_told};
ghost use Rattle.paged_read.specs.Snapshots.{LeavesAllWriters};

use crate::search;
use disk::{Blob, Error, IoBuf, IoBufs, ReadOptions};
use page::{Checksum, Sum, physical_page};
use std::alloc::Global;
use std::num::NonZeroU16;

/// A physical page, in one read, and how many of its first bytes are its value.
///
/// `OffsetOverflow` where the page's end passes the greatest `u64`, `BlobInsufficientLength` where
/// the blob ends before the page does, `InvalidChecksum` where the page has no value. `ReadFailed`
/// where the device failed, `OutOfMemory` where memory was refused.
fn read_value<B: Blob, H: Sum>(
    alloc: Global,
    blob: &mut B,
    page_size: NonZeroU16,
    page: u64,
    options: ReadOptions,
) -> Result<(IoBuf, u16), Error>
    ensures told { let old = B.life blob.old in let new = B.life blob.new in
        let P = non_zero_u16_get page_size in
        ReadsTold (λ r. take r.1 r.0) (value_told H.sum_of P page old.present.readable) old new
        result }
    ensures within { IfOk result (λ r. r.1 ≤ length r.0) }
    ensures part { IfOk result (λ r. r.1 ≤ non_zero_u16_get page_size) }
    ensures offset { IfOk result (λ r.
        (page + 1) * (non_zero_u16_get page_size + 12) < 2 ^ 64) }
    ensures len { let old = B.life blob.old in let P = non_zero_u16_get page_size in
        IfOk result (λ r. r.1 ≡ value_len H.sum_of P (page_at P page old.present.readable)) }
    ensures reads { let old = B.life blob.old in let new = B.life blob.new in
        ReadsOne (non_zero_u16_get page_size) page old new result }
{
    let (page_start, size) = physical_page(page, u64::from(page_size.get()))?;
    let bytes = blob.read_at(alloc, page_start, size, options)?;
    match Checksum::validate_page::<H>(bytes.as_ref()) {
        None => Err(Error::InvalidChecksum),
        Some(slot) => Ok((bytes, slot.len)),
    }
}

/// The bytes of a page's value at or after the logical offset `offset` and before `end`. The page
/// begins before `end`.
///
/// Errors are those of [`read_value`], and `BlobInsufficientLength` where there is no such byte.
fn read_part<B: Blob, H: Sum>(
    alloc: Global,
    blob: &mut B,
    page_size: NonZeroU16,
    page: u64,
    offset: u64,
    end: u64,
    options: ReadOptions,
) -> Result<IoBuf, Error>
    requires begins { page * non_zero_u16_get page_size < end }
    ensures told { let old = B.life blob.old in let new = B.life blob.new in
        let P = non_zero_u16_get page_size in
        let told = value_told H.sum_of P page old.present.readable in
        ReadsTold (λ bytes. bytes) (part_of P offset end page told) old new result }
    ensures reads { let old = B.life blob.old in let new = B.life blob.new in
        ReadsOne (non_zero_u16_get page_size) page old new result }
{
    let (bytes, len) = read_value::<B, H>(alloc, blob, page_size, page, options)?;
    let start = page * u64::from(page_size.get());
    let skip = offset.saturating_sub(start);
    let stop = (end - start).min(u64::from(len));
    if stop <= skip {
        return Err(Error::BlobInsufficientLength);
    }
    bytes.slice(skip as usize, stop as usize)
}

/// The `len` bytes from the logical offset `offset` on, of a blob that nobody opened, with pages of
/// `page_size` logical bytes. They come from the values of its pages, each read by a read of its
/// own, in rising order. For `len` 0 no device is asked.
///
/// `OffsetOverflow` where the range's end passes the greatest `u64`, before the device or memory is
/// asked. Else the first page that gives nothing decides:
/// - `InvalidChecksum` where the page has no value,
/// - `BlobInsufficientLength` where its value has no byte of the range, or the blob ends before the
///   page does,
/// - `OffsetOverflow` where the page's physical end passes the greatest `u64`.
///
/// After the last page, `BlobInsufficientLength` where fewer than `len` bytes were found.
/// `ReadFailed` where the device failed, `OutOfMemory` where memory was refused.
pub fn read_range<B: Blob, H: Sum>(
    alloc: Global,
    blob: &mut B,
    page_size: NonZeroU16,
    offset: u64,
    len: usize,
    options: ReadOptions,
) -> Result<IoBufs, Error>
    ensures told { let old = B.life blob.old in let new = B.life blob.new in
        let P = non_zero_u16_get page_size in
        ReadsTold concat (range_told H.sum_of P offset len old.present.readable) old new result }
    ensures overflow { 2 ^ 64 ≤ offset + len
        → (result ≡ Err Error.OffsetOverflow) × (B.life blob.new ≡ B.life blob.old) }
    ensures empty { len ≡ 0 → (result ≡ Ok []) × (B.life blob.new ≡ B.life blob.old) }
    ensures looked { Looked (B.life blob.old) (B.life blob.new) }
    ensures writers { LeavesAllWriters H.sum_of (B.life blob.old) (B.life blob.new) }
    ensures costs { let old = B.life blob.old in let new = B.life blob.new in
        ReadsPagesOf (non_zero_u16_get page_size) offset len old new }
{
    let end = offset.checked_add(len as u64).ok_or(Error::OffsetOverflow)?;
    let mut bytes = IoBufs::new(alloc);
    if len == 0 {
        return Ok(bytes);
    }
    let size = u64::from(page_size.get());
    for page in offset / size..(end - 1) / size + 1 {
        let part = read_part::<B, H>(alloc, blob, page_size, page, offset, end, options)?;
        bytes.append(part)?;
    }
    if bytes.len() != len {
        return Err(Error::BlobInsufficientLength);
    }
    Ok(bytes)
}

/// The logical size of a blob of `physical_size` bytes that nobody opened, with pages of
/// `page_size` logical bytes, and its last `len` bytes. The last page is read first, and what lies
/// before it as by [`read_range`]. For an empty blob neither the device nor memory is asked.
///
/// `BlobInsufficientLength` where `physical_size` isn't whole physical pages, where the blob is
/// shorter, or where it has fewer than `len` bytes by the length of its last page's value.
/// `InvalidChecksum` where the last page has no value. The other errors are those of
/// [`read_range`], for the bytes before that page.
pub fn read_tail<B: Blob, H: Sum>(
    alloc: Global,
    blob: &mut B,
    physical_size: u64,
    page_size: NonZeroU16,
    len: usize,
    options: ReadOptions,
) -> Result<(u64, IoBufs), Error>
    ensures told { let old = B.life blob.old in let new = B.life blob.new in
        let P = non_zero_u16_get page_size in
        ReadsTold (λ r. (r.0, concat r.1))
        (tail_told H.sum_of P physical_size len old.present.readable) old new result }
    ensures unread { let old = B.life blob.old in let new = B.life blob.new in
        EndsUnread (non_zero_u16_get page_size) physical_size len old new result }
    ensures looked { Looked (B.life blob.old) (B.life blob.new) }
    ensures writers { LeavesAllWriters H.sum_of (B.life blob.old) (B.life blob.new) }
    ensures costs { let old = B.life blob.old in let new = B.life blob.new in
        ReadsTail H.sum_of (non_zero_u16_get page_size) physical_size len old new }
{
    let size = search::physical_page_size(page_size);
    if physical_size % size != 0 {
        return Err(Error::BlobInsufficientLength);
    }
    if physical_size > 0 {
        let last = physical_size / size - 1;
        return read_after::<B, H>(alloc, blob, page_size, last, len, options);
    }
    if len > 0 {
        return Err(Error::BlobInsufficientLength);
    }
    Ok((0, IoBufs::new(alloc)))
}

/// The logical offset at which the value of the page `last` ends, and the `len` bytes before it.
fn read_after<B: Blob, H: Sum>(
    alloc: Global,
    blob: &mut B,
    page_size: NonZeroU16,
    last: u64,
    len: usize,
    options: ReadOptions,
) -> Result<(u64, IoBufs), Error>
    ensures told { let old = B.life blob.old in let new = B.life blob.new in
        let P = non_zero_u16_get page_size in let readable = old.present.readable in
        ReadsTold (λ r. (r.0, concat r.1))
        (after_told H.sum_of P last len readable (value_told H.sum_of P last readable)) old new
        result }
    ensures reads { let old = B.life blob.old in let new = B.life blob.new in
        let P = non_zero_u16_get page_size in
        let value = value_len H.sum_of P (page_at P last old.present.readable) in
        let from = last * P + value - len in
        ReadsBefore P last from old new }
{
    let (tail, tail_len) = read_value::<B, H>(alloc, blob, page_size, last, options)?;
    let start = last * u64::from(page_size.get());
    let end = start + u64::from(tail_len);
    if end < len as u64 {
        return Err(Error::BlobInsufficientLength);
    }
    let offset = end - len as u64;
    let before = start.saturating_sub(offset) as usize;
    let mut bytes = read_range::<B, H>(alloc, blob, page_size, offset, before, options)?;
    let skip = offset.saturating_sub(start) as usize;
    bytes.append(tail.slice(skip, usize::from(tail_len))?)?;
    Ok((end, bytes))
}
