// Searches through the pages of a blob that nobody opened, and reads of it.
ghost use Rattle.std.specs.Prelude.{◌≤◌, ◌<◌, ◌+◌, ◌*◌, ◌^◌, length, IfOk};
ghost use Rattle.std.specs.Int.NonZero.{non_zero_u16_get};
ghost use Rattle.disk.specs.History.{life_of};

use crate::words::{say_bytes, say_error};
use disk::{Blob, Error, MemBlob, ReadOptions};
use page::{ActiveChecksum, AddSum, Slot};
use paged::{Writer, physical_page_size};
use paged_read::for_paged::{Prefix, last_pages, scan};
use scripts::Hex;
use std::alloc::Global;
use std::io;
use std::io::Write;
use std::num::{NonZeroU16, NonZeroUsize};

// How many pages of this size a blob has.
fn count(blob: &MemBlob, page_size: NonZeroU16) -> Result<u64, Error>
    ensures there { IfOk result (λ pages. pages * (non_zero_u16_get page_size + 12)
        ≤ length (life_of blob.now).present.readable) }
    ensures fits { IfOk result (λ pages. pages * (non_zero_u16_get page_size + 12) < 2 ^ 64) }
{
    let size = physical_page_size(page_size);
    let pages = blob.len() / size;
    let end = pages.checked_mul(size).ok_or(Error::OffsetOverflow)?;
    if end > blob.len() {
        return Err(Error::BlobInsufficientLength);
    }
    Ok(pages)
}

fn scanned(
    alloc: Global,
    blob: &mut MemBlob,
    page_size: NonZeroU16,
    buffer_size: NonZeroUsize,
) -> Result<Prefix, Error> {
    let pages = count(blob, page_size)?;
    scan::<MemBlob, AddSum>(alloc, blob, page_size, pages, buffer_size, &mut None)
}

fn searched(alloc: Global, blob: &mut MemBlob, page_size: NonZeroU16) -> Result<Prefix, Error> {
    let pages = count(blob, page_size)?;
    let (prefix, _) = last_pages::<MemBlob, AddSum>(alloc, blob, page_size, pages)?;
    Ok(prefix)
}

fn say_slot(slot: ActiveChecksum, said: &mut Vec<u8>) -> io::Result<()> {
    let place = match slot.slot {
        Slot::First => "first",
        Slot::Second => "second",
    };
    write!(said, " in the {place} slot")
}

// How many full pages there are, and the value after them, if there is one.
fn say_prefix(prefix: Result<Prefix, Error>, said: &mut Vec<u8>) -> io::Result<()> {
    match prefix {
        Ok(prefix) => {
            write!(said, "full {}", prefix.full_pages)?;
            match &prefix.partial {
                Some((value, slot)) => {
                    write!(said, " and {}", Hex(value.as_ref()))?;
                    say_slot(*slot, said)
                }
                None => Ok(()),
            }
        }
        Err(error) => say_error(error, said),
    }
}

/// Scans all pages of a blob, forward to the first that isn't full.
pub fn say_scan(
    alloc: Global,
    blob: &mut MemBlob,
    page_size: NonZeroU16,
    buffer_size: NonZeroUsize,
    said: &mut Vec<u8>,
) -> io::Result<()> {
    say_prefix(scanned(alloc, blob, page_size, buffer_size), said)
}

/// Looks for the last of all pages of a blob that has a value, and goes back.
pub fn say_last_pages(
    alloc: Global,
    blob: &mut MemBlob,
    page_size: NonZeroU16,
    said: &mut Vec<u8>,
) -> io::Result<()> {
    say_prefix(searched(alloc, blob, page_size), said)
}

/// Reads a range.
pub fn say_range(
    alloc: Global,
    blob: &mut MemBlob,
    page_size: NonZeroU16,
    offset: u64,
    len: usize,
    said: &mut Vec<u8>,
) -> io::Result<()> {
    let options = ReadOptions::default();
    let read = Writer::<MemBlob, AddSum>::read_range(alloc, blob, page_size, offset, len, options);
    match read.and_then(|bufs| bufs.coalesce()) {
        Ok(buf) => say_bytes("bytes", buf.as_ref(), said),
        Err(error) => say_error(error, said),
    }
}

/// Reads the logical size of a blob of `physical_size` bytes, and its last `len` logical bytes.
pub fn say_tail(
    alloc: Global,
    blob: &mut MemBlob,
    page_size: NonZeroU16,
    physical_size: u64,
    len: usize,
    said: &mut Vec<u8>,
) -> io::Result<()> {
    let options = ReadOptions::default();
    let read = Writer::<MemBlob, AddSum>::read_tail(
        alloc,
        blob,
        physical_size,
        page_size,
        len,
        options,
    );
    match read.and_then(|(size, bufs)| Ok((size, bufs.coalesce()?))) {
        Ok((size, buf)) => write!(said, "size {size} bytes {}", Hex(buf.as_ref())),
        Err(error) => say_error(error, said),
    }
}
