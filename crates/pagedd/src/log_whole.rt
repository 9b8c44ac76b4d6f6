// Opening the files that an opening of a log recovers, if they are whole. Then it cuts nothing, and
// needs no other look at them.
use crate::log_durable::missing_of;
use crate::log_held::HeldFolder;
use crate::log_known::Known;
use crate::pages::{Page, value_of};
use crate::request::{Request, Shape};
use crate::serving::fail_file;
use crate::status::Status;
use disk::Blob;
use file::OpenError;
use page::Sum;
use paged::physical_page_size;
use segments::{Asked, Folder};

/// How many bytes a frame has besides its record.
const AROUND: u64 = 7;

/// Opens and holds the manifest and the open segment of a log, and answers whether an opening of
/// the log gives up nothing of them, and nothing is missing by the copy of the manifest. If the
/// answer is `false`, the folder holds nothing, and a look at the log is to say why. If a sync
/// failed, a line says so.
pub fn hold_whole<F: Folder<B> + Drop, B: Blob + Drop, H: Sum>(
    rt: &HostRuntime,
    request: &Request,
    folder: &mut HeldFolder<F, B>,
) -> Result<bool, Status> {
    if hold_files::<F, B, H>(rt, request, folder)? {
        return Ok(true);
    }
    folder.release();
    Ok(false)
}

// Opens and holds both files, up to the first that isn't whole. Answers whether both are.
fn hold_files<F: Folder<B> + Drop, B: Blob + Drop, H: Sum>(
    rt: &HostRuntime,
    request: &Request,
    folder: &mut HeldFolder<F, B>,
) -> Result<bool, Status> {
    if !hold(rt, request, folder, Asked::Manifest)? {
        return Ok(false);
    }
    let manifest = folder.bytes_of(Asked::Manifest);
    let known = Known::of::<H>(rt.alloc(), request.shape, manifest)?;
    if !known.is_whole || known.is_empty() {
        return Ok(false);
    }
    let number = known.listing.open();
    let segment = Asked::Segment(number);
    if !hold(rt, request, folder, segment)? {
        return Ok(false);
    }
    match whole_len::<H>(request.shape, folder.bytes_of(segment)) {
        Some(len) => Ok(missing_of(rt, request.file, number, len)?.is_none()),
        None => Ok(false),
    }
}

// Opens and holds a file. Answers whether that was done. If a sync failed, a line says so, since a
// second one may succeed without what was written.
fn hold<F: Folder<B> + Drop, B: Blob + Drop>(
    rt: &HostRuntime,
    request: &Request,
    folder: &mut HeldFolder<F, B>,
    file: Asked,
) -> Result<bool, Status> {
    match folder.hold(file) {
        Ok(is_there) => Ok(is_there),
        Err(OpenError::System(_)) => Ok(false),
        Err(OpenError::Unsynced(error)) => Err(fail_file(rt, request.file, &error, true)),
    }
}

/// How many bytes the text of a log's file of these bytes has, if the file holds nothing else: each
/// page has a value, all but the last are full, a last one that isn't full has no bad slot, and the
/// text ends with a frame. `None` for any other file.
pub fn whole_len<H: Sum>(shape: Shape, bytes: &[u8]) -> Option<u64> {
    let len = pages_len::<H>(shape, bytes)?;
    let mut end = 0u64;
    for _ in 0..u64::MAX {
        if end >= len {
            break;
        }
        let around = record_len_at(shape, bytes, end)?.saturating_add(AROUND);
        end = end.saturating_add(around);
    }
    (end == len).then_some(len)
}

// How many bytes the values of the pages have, if each page has one, all but the last are full, and
// a last one that isn't full has no bad slot.
fn pages_len<H: Sum>(shape: Shape, bytes: &[u8]) -> Option<u64> {
    let full = usize::from(shape.page_size.get());
    let size = physical_page_size(shape.page_size) as usize;
    let mut count = 0u64;
    let mut len = 0u64;
    let mut is_full = true;
    for page in bytes.chunks(size) {
        if !is_full || page.len() < size {
            return None;
        }
        let value = value_of::<H>(page).len();
        if value == 0 {
            return None;
        }
        is_full = value == full;
        count = count.saturating_add(1);
        len = len.saturating_add(value as u64);
    }
    if is_full {
        return Some(len);
    }
    let last = Page::at::<H>(bytes, shape.page_size, count.saturating_sub(1))?;
    last.bad.is_none().then_some(len)
}

// How many bytes the record has whose frame begins at an offset of the text of these pages.
fn record_len_at(shape: Shape, bytes: &[u8], offset: u64) -> Option<u64> {
    let high = text_byte(shape, bytes, offset)?;
    let low = text_byte(shape, bytes, offset.saturating_add(1))?;
    Some(u64::from(u16::from_be_bytes([high, low])))
}

// The byte at an offset of the text of these pages, all of which but the last are full.
fn text_byte(shape: Shape, bytes: &[u8], offset: u64) -> Option<u8> {
    let full = u64::from(shape.page_size.get());
    let start = (offset / full).saturating_mul(physical_page_size(shape.page_size));
    let at = start.saturating_add(offset % full);
    bytes.get(at as usize).copied()
}
