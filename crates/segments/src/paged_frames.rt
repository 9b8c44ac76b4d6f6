// Frames of a content that is read by its pages.
ghost use Rattle.std.specs.Prelude.{◌≡◌, ◌≤◌, ◌+◌, length, IfOk, IfSome, IsOkUnless};
ghost use Rattle.journal.specs.Frame.{record_len, record_of};
ghost use Rattle.page_digests.specs.declared.error.Error.TheVariants as errors;
ghost use Rattle.segments.specs.PagedFrames.{PagedFrameGoes};

use bytes::Bytes;
use digest::Digest;
use disk::IoBuf;
use journal::{AFTER, Found, IN_FRONT, record_at, record_len_of};
use page::Sum;
use page_digests::{Error, PagedContent, Source};
use std::alloc::Global;

/// The frame that begins at logical byte `offset` of a content; `None` at its end and after it:
/// then nothing is read. Only the pages that the frame touches are read, and the pages of the list
/// with their digests. Each is compared with its digest. A frame in the page that was read last is
/// copied from there. Of another one the length is read first, and then all of it.
///
/// `Damaged` if one of these pages isn't as it was, `System` if the system refuses a read. The
/// other pages can still be read.
pub fn frame_at<S: Source + Drop, D: Digest, R: Sum>(
    alloc: Global,
    content: &mut PagedContent<S, D>,
    offset: u64,
) -> Result<Option<Found>, Error>
    ensures { PagedFrameGoes D.digest_of R.sum_of offset content.old content.new result }
{
    let size = content.len();
    if size <= offset {
        return Ok(None);
    }
    let held = content.held(offset);
    if let Some(len) = frame_in(held) {
        let record = record_of_copy::<R>(alloc, &held[..len])?;
        return Ok(Some(Found {
            bytes: record,
            end: offset + len as u64,
        }));
    }
    let rest = (size - offset) as usize;
    let front = content.read(alloc, offset, rest.min(IN_FRONT))?;
    let len = rest.min(IN_FRONT + record_len_of(&front) + AFTER);
    let framed = content.read(alloc, offset, len)?;
    let bytes = record_in::<R>(framed)?;
    Ok(Some(Found {
        bytes,
        end: offset + len as u64,
    }))
}

// How many bytes the frame at the front of some bytes has, if they have all of it.
fn frame_in(bytes: &[u8]) -> Option<usize>
    ensures { IfSome result (λ len. (len ≡ record_len bytes.now + 7) × (len ≤ length bytes.now)) }
{
    let len = IN_FRONT + record_len_of(bytes) + AFTER;
    if bytes.len() < len {
        return None;
    }
    Some(len)
}

// The record of the frame at the front of some bytes, if it is one. It is a copy.
fn record_of_copy<R: Sum>(alloc: Global, framed: &[u8]) -> Result<Option<IoBuf>, Error>
    ensures found { IfOk result (λ found. found ≡ record_of R.sum_of framed.now) }
    ensures err { IsOkUnless result errors.OutOfMemory }
{
    record_in::<R>(Vec::from_slice(alloc, framed)?)
}

// The record of the frame at the front of some bytes, if it is one. It shares them.
fn record_in<R: Sum>(framed: Vec<u8>) -> Result<Option<IoBuf>, Error>
    ensures found { IfOk result (λ found. found ≡ record_of R.sum_of framed.items) }
    ensures err { IsOkUnless result errors.OutOfMemory }
{
    let Ok(shared) = Bytes::from_vec(framed) else {
        return Err(Error::OutOfMemory);
    };
    match record_at::<R>(&IoBuf::from(shared)) {
        Ok(found) => Ok(found),
        Err(_) => Err(Error::OutOfMemory),
    }
}
