// Where pages stand in a blob.
ghost use Rattle.std.specs.Prelude.{◌≡◌, ◌+◌, ◌*◌, ◌-◌, ◌%◌, ◌<◌, ◌≤◌, ◌^◌, IsOkUnless, IfOk};
ghost use Rattle.std.specs.Prelude.{false, sum_by};
ghost use Rattle.std.specs.Int.{IsPowerOfTwo, next_multiple_of};
ghost use Rattle.std.specs.Int.NonZero.{non_zero_u16_get};
ghost use Rattle.std.specs.Result.{OkIff};
ghost use Rattle.page.specs.Geometry.{adjusted, fill, is_too_big, AreInOrder, RangeGoes, RangesGo};

use disk::Error;
use std::num::NonZeroU16;

/// The size of a footer, in bytes.
pub const CHECKSUM_SIZE: u64 = 12;

/// The logical page size, in bytes, of physical pages of `n` bytes.
pub fn page_size(n: u32) -> NonZeroU16
    requires power { IsPowerOfTwo n }
    requires low { 12 < n }
    requires high { n ≤ 65536 }
    ensures { non_zero_u16_get result ≡ n - 12 }
{
    NonZeroU16::new((n - 12) as u16).unwrap()
}

/// The offset of a physical page in its blob, in bytes, and the page's size with its footer, in
/// bytes. Pages are counted from 0. `OffsetOverflow` exactly where the page's end passes the
/// greatest offset.
pub fn physical_page(page: u64, page_size: u64) -> Result<(u64, usize), Error>
    ensures offset { OkIff result ((page + 1) * (page_size + 12) < 2 ^ 64)
        (page * (page_size + 12), page_size + 12) }
    ensures err { IsOkUnless result Error.OffsetOverflow }
{
    let size = page_size
        .checked_add(CHECKSUM_SIZE)
        .ok_or(Error::OffsetOverflow)?;
    let offset = page.checked_mul(size).ok_or(Error::OffsetOverflow)?;
    if offset.checked_add(size).is_none() {
        return Err(Error::OffsetOverflow);
    }
    Ok((offset, size as usize))
}

/// `capacity` in bytes, rounded up to whole pages, and at least two pages: the capacity of a buffer
/// that is to hold so much. `OffsetOverflow` exactly where that passes the greatest length.
pub fn adjusted_capacity(capacity: usize, page_size: u64) -> Result<usize, Error>
    requires { 0 < page_size }
    ensures capacity { OkIff result (adjusted capacity page_size < 2 ^ 64)
        (adjusted capacity page_size) }
    ensures err { IsOkUnless result Error.OffsetOverflow }
{
    let page_size = page_size as usize;
    let two_pages = page_size.checked_mul(2).ok_or(Error::OffsetOverflow)?;
    let whole_pages = capacity
        .checked_next_multiple_of(page_size)
        .ok_or(Error::OffsetOverflow)?;
    Ok(whole_pages.max(two_pages))
}

/// Whether `n` bytes are too many to go through a buffer of `len` bytes: they pass its capacity,
/// and would leave a whole page after the one that they fill. `OffsetOverflow` exactly where a sum
/// that this takes passes the greatest length: the bytes together, those of the pages that hold
/// `len` bytes, or the fewest that are too many.
pub fn too_big_for_buffer(
    len: usize,
    capacity: usize,
    n: usize,
    page_size: usize,
) -> Result<bool, Error>
    requires { 0 < page_size }
    ensures answer { OkIff result ((len + n < 2 ^ 64)
        × (next_multiple_of len page_size < 2 ^ 64)
        × (fill len page_size + page_size < 2 ^ 64)) (is_too_big len capacity n page_size) }
    ensures err { IsOkUnless result Error.OffsetOverflow }
    ensures room { IfOk result (λ big.
        big ≡ false → capacity % page_size ≡ 0 → len ≤ capacity → len + n < capacity + page_size) }
{
    let total = len.checked_add(n).ok_or(Error::OffsetOverflow)?;
    let whole_pages = len
        .checked_next_multiple_of(page_size)
        .ok_or(Error::OffsetOverflow)?;
    let too_many = (whole_pages - len)
        .checked_add(page_size)
        .ok_or(Error::OffsetOverflow)?;
    Ok(total > capacity && n >= too_many)
}

/// Checks that ranges, each an offset and a length in bytes, lie within a blob of `size` bytes. The
/// caller must pass them in order and without overlaps, and their lengths must come to `buf_len`
/// bytes together. The first range that can't be read decides the error: `OffsetOverflow` where its
/// end passes the greatest offset, and else `BlobInsufficientLength` where its end passes the size.
pub fn validate_read_ranges(buf_len: usize, ranges: &[(u64, usize)], size: u64) -> Result<(), Error>
    requires in_order { AreInOrder ranges.now }
    requires filled { buf_len ≡ sum_by (λ range. range.1) ranges.now }
    ensures { RangesGo size ranges.now result }
{
    for &(offset, len) in ranges {
        validate_range(offset, len, size)?;
    }
    Ok(())
}

fn validate_range(offset: u64, len: usize, size: u64) -> Result<(), Error>
    ensures { RangeGoes size (offset, len) result }
{
    let end = offset.checked_add(len as u64).ok_or(Error::OffsetOverflow)?;
    if end > size {
        return Err(Error::BlobInsufficientLength);
    }
    Ok(())
}
