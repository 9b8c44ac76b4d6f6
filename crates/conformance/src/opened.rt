// What is read of a blob that is opened as it is, damaged pages too.
ghost use Rattle.std.specs.Prelude.{IfOk};
ghost use Rattle.cache.specs.Pages.{IsFresh};

use crate::words::{say_bytes, say_error};
use cache::CacheRef;
use disk::{Blob, Error, IoBuf, MemBlob, ReadOptions};
use page::{AddSum, Sum};
use paged::Recovery;
use std::alloc::Global;
use std::io;
use std::io::Write;
use std::num::{NonZeroU16, NonZeroUsize};

// How many bytes the writer may hold back.
const CAPACITY: usize = 8;

// A cache of four pages.
fn new_cache(alloc: Global, page_size: NonZeroU16) -> Result<CacheRef, Error>
    ensures { IfOk result (λ cache. IsFresh cache) }
{
    let pages = NonZeroUsize::new(4).unwrap_or(NonZeroUsize::MIN);
    CacheRef::new(alloc, page_size, pages)
}

// The size of a blob that is opened as it is, and how many logical bytes a scan from the first one
// on counts, of at most so many.
fn scanned(
    alloc: Global,
    blob: &mut MemBlob,
    page_size: NonZeroU16,
    most: u64,
) -> Result<(u64, u64), Error> {
    let mut cache = new_cache(alloc, page_size)?;
    let size = blob.len();
    let recovery = Recovery::<MemBlob, AddSum>::open(alloc, blob, size, CAPACITY, &mut cache)?;
    let options = ReadOptions::default();
    let one = NonZeroUsize::MIN;
    let len = recovery.recoverable_prefix_len_at_most(blob, 0, most, one, options)?;
    Ok((recovery.size(), len))
}

/// Opens a blob as it is, and reads a range.
pub fn read<H: Sum>(
    alloc: Global,
    blob: &mut MemBlob,
    page_size: NonZeroU16,
    offset: u64,
    len: usize,
) -> Result<IoBuf, Error> {
    let mut cache = new_cache(alloc, page_size)?;
    let size = blob.len();
    let recovery = Recovery::<MemBlob, H>::open(alloc, blob, size, CAPACITY, &mut cache)?;
    recovery.read_at(blob, &mut cache, offset, len)?.coalesce()
}

/// Opens a blob and scans it.
pub fn say_opened_scan(
    alloc: Global,
    blob: &mut MemBlob,
    page_size: NonZeroU16,
    most: u64,
    said: &mut Vec<u8>,
) -> io::Result<()> {
    match scanned(alloc, blob, page_size, most) {
        Ok((size, len)) => write!(said, "opened {size} size {len}"),
        Err(error) => say_error(error, said),
    }
}

/// Opens a blob and reads a range.
pub fn say_opened_read(
    alloc: Global,
    blob: &mut MemBlob,
    page_size: NonZeroU16,
    offset: u64,
    len: usize,
    said: &mut Vec<u8>,
) -> io::Result<()> {
    match read::<AddSum>(alloc, blob, page_size, offset, len) {
        Ok(buf) => say_bytes("bytes", buf.as_ref(), said),
        Err(error) => say_error(error, said),
    }
}
