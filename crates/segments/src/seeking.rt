// Frames of a content that is read by its pages, which are passed.
ghost use Rattle.std.specs.Prelude.{◌≡◌, ◌<◌, ◌≤◌, ◌+◌, ◌-◌, ◌*◌, ◌^◌, ℕ, List, length};
ghost use Rattle.journal.specs.Frame.{frame_len};
ghost use Rattle.page_digests.specs.Pages.{range_at};
ghost use Rattle.segments.specs.Marking.{FramesBegin};
ghost use Rattle.segments.specs.Marks.{frame_begin};
ghost use Rattle.segments.specs.Seeks.{CountGoes, PassGoes};

use digest::Digest;
use journal::{AFTER, IN_FRONT, record_len_of};
use page_digests::{Error, PagedContent, Source};
use std::alloc::Global;

// How many bytes a frame has, by its first two bytes.
fn frame_len_of(front: &[u8]) -> u64
    ensures len { result ≡ frame_len front.now }
    ensures small { result < 2 ^ 17 }
{
    (IN_FRONT + record_len_of(front) + AFTER) as u64
}

// Passes the frames from the one on that begins at byte `first`, as far as they begin before byte
// `offset`. The bytes are the content's from `first` on, up to and with the one at `offset`.
fn pass_in(bytes: &[u8], first: u64, offset: u64) -> (u64, u64)
    requires limit { offset < 2 ^ 50 }
    ensures passes { (content : List ℕ) → offset < length content
        → bytes.now ≡ range_at first (offset + 1 - first) content
        → (n : ℕ) → frame_begin content n ≡ first
        → FramesBegin content offset n result.0 result.1 }
    ensures all { offset ≤ result.1 }
    ensures few { result.0 * 7 + first ≤ result.1 }
{
    let mut frames = 0;
    let mut at = first;
    while at < offset {
        let skip = ((at - first) as usize).min(bytes.len());
        at += frame_len_of(&bytes[skip..]);
        frames += 1;
    }
    (frames, at)
}

/// Passes the frames of a content from the one on that begins at byte `first`, as far as they begin
/// before byte `offset`. Answers how many, and where the next one begins. This reads the bytes from
/// `first` to the offset at once: where both are in one page, that page alone is asked for, once at
/// most.
pub fn pass_to<F: Source + Drop, D: Digest>(
    alloc: Global,
    content: &mut PagedContent<F, D>,
    first: u64,
    offset: u64,
) -> Result<(u64, u64), Error>
    requires within { offset < content.old.seal.len }
    requires limit { offset < 2 ^ 50 }
    ensures { PassGoes D.digest_of first offset content.old content.new result }
{
    if offset <= first {
        return Ok((0, first));
    }
    let bytes = content.read(alloc, first, (offset + 1 - first) as usize)?;
    Ok(pass_in(&bytes, first, offset))
}

/// Passes so many frames of a content from the one on that begins at byte `first`, as far as both
/// bytes of their lengths are in it. Answers how many are left, and where the next one begins.
pub fn count_to<F: Source + Drop, D: Digest>(
    alloc: Global,
    content: &mut PagedContent<F, D>,
    first: u64,
    count: u64,
) -> Result<(u64, u64), Error>
    ensures { CountGoes D.digest_of first count content.old content.new result }
{
    let last = content.len().saturating_sub(1);
    let mut left = count;
    let mut at = first;
    while at < last {
        if left == 0 {
            return Ok((0, at));
        }
        let front = content.read(alloc, at, IN_FRONT)?;
        at += frame_len_of(&front);
        left -= 1;
    }
    Ok((left, at))
}
