// Reading a blob that nobody opened.
ghost use Rattle.std.specs.Prelude.{◌≡◌, ◌+◌, ◌≤◌, ◌^◌, [], Ok, Err};
ghost use Rattle.std.specs.Int.NonZero.{non_zero_u16_get};
ghost use Rattle.std.specs.List.{concat};
ghost use Rattle.crash.specs.Looks.{Looked};
ghost use Rattle.paged_read.specs.RawReads.{EndsUnread, range_told, ReadsPagesOf, ReadsTail};
ghost use Rattle.paged_read.specs.RawReads.{ReadsTold, tail_told};
ghost use Rattle.paged_read.specs.Snapshots.{LeavesAllWriters};

use crate::Writer;
use disk::{Blob, Error, IoBufs, ReadOptions};
use page::Sum;
use paged_read::for_paged;
use std::alloc::Global;
use std::num::NonZeroU16;

impl<B: Blob, H: Sum> Writer<B, H> {
    /// The `len` bytes from the logical offset `offset` on, of a blob that nobody opened, with
    /// pages of `page_size` logical bytes. They come from the values of its pages, each read by a
    /// read of its own, in rising order. For `len` 0 no device is asked.
    ///
    /// `OffsetOverflow` where the range's end passes the greatest `u64`, before the device or
    /// memory is asked. Else the first page that gives nothing decides:
    /// - `InvalidChecksum` where the page has no value,
    /// - `BlobInsufficientLength` where its value has no byte of the range, or the blob ends before
    ///   the page does,
    /// - `OffsetOverflow` where the page's physical end passes the greatest `u64`.
    ///
    /// After the last page, `BlobInsufficientLength` where fewer than `len` bytes were found.
    /// `ReadFailed` where the device failed, `OutOfMemory` where memory was refused. The blob is
    /// only read, even where the call fails.
    pub fn read_range(
        alloc: Global,
        blob: &mut B,
        page_size: NonZeroU16,
        offset: u64,
        len: usize,
        options: ReadOptions,
    ) -> Result<IoBufs, Error>
        ensures told { let old = B.life blob.old in let new = B.life blob.new in
            let P = non_zero_u16_get page_size in
            ReadsTold concat (range_told H.sum_of P offset len old.present.readable) old new
            result }
        ensures overflow { 2 ^ 64 ≤ offset + len
            → (result ≡ Err Error.OffsetOverflow) × (B.life blob.new ≡ B.life blob.old) }
        ensures empty { len ≡ 0 → (result ≡ Ok []) × (B.life blob.new ≡ B.life blob.old) }
        ensures looked { Looked (B.life blob.old) (B.life blob.new) }
        ensures writers { LeavesAllWriters H.sum_of (B.life blob.old) (B.life blob.new) }
        ensures costs { let old = B.life blob.old in let new = B.life blob.new in
            ReadsPagesOf (non_zero_u16_get page_size) offset len old new }
    {
        for_paged::read_range::<B, H>(alloc, blob, page_size, offset, len, options)
    }

    /// The logical size of a blob of `physical_size` bytes that nobody opened, with pages of
    /// `page_size` logical bytes, and its last `len` bytes. The last page is read first, and what
    /// lies before it as by [`Writer::read_range`]. For an empty blob no device is asked.
    ///
    /// `BlobInsufficientLength` where `physical_size` isn't whole physical pages, where the blob is
    /// shorter, or where it has fewer than `len` bytes by the length of its last page's value.
    /// `InvalidChecksum` where the last page has no value. The other errors are those of
    /// [`Writer::read_range`], for the bytes before that page. The blob is only read, even where
    /// the call fails.
    pub fn read_tail(
        alloc: Global,
        blob: &mut B,
        physical_size: u64,
        page_size: NonZeroU16,
        len: usize,
        options: ReadOptions,
    ) -> Result<(u64, IoBufs), Error>
        ensures told { let old = B.life blob.old in let new = B.life blob.new in
            let P = non_zero_u16_get page_size in
            ReadsTold (λ r. (r.0, concat r.1))
            (tail_told H.sum_of P physical_size len old.present.readable) old new result }
        ensures unread { let old = B.life blob.old in let new = B.life blob.new in
            EndsUnread (non_zero_u16_get page_size) physical_size len old new result }
        ensures looked { Looked (B.life blob.old) (B.life blob.new) }
        ensures writers { LeavesAllWriters H.sum_of (B.life blob.old) (B.life blob.new) }
        ensures costs { let old = B.life blob.old in let new = B.life blob.new in
            ReadsTail H.sum_of (non_zero_u16_get page_size) physical_size len old new }
    {
        for_paged::read_tail::<B, H>(alloc, blob, physical_size, page_size, len, options)
    }
}
