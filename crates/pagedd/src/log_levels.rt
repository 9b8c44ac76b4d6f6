// The levels of a segment: those of its content, and those of its marks.
ghost use Rattle.std.specs.Prelude.{◌≡◌, ◌<◌, ◌+◌, ◌*◌, ◌^◌, IfSome, length};

use digest::Digest;
use page_digests::{Digesting, Levels, catch_up, levels_of, levels_of_list};
use paged::physical_page_size;
use segments::{Marking, SegmentLevels};
use std::alloc::{AllocError, Global};
use std::num::NonZeroU16;

/// The levels of the content of so many bytes in a segment's file. `None` if the file has fewer.
pub fn levels_in<D: Digest>(
    alloc: Global,
    page_size: NonZeroU16,
    bytes: &[u8],
    len: u64,
) -> Result<Option<SegmentLevels>, AllocError> {
    let size = u64::from(page_size.get());
    let full = (len / size) as usize;
    let stride = physical_page_size(page_size) as usize;
    let Some(begin) = full.checked_mul(stride) else {
        return Ok(None);
    };
    let Some((pages, rest)) = bytes.split_at_checked(begin) else {
        return Ok(None);
    };
    let Some(rest) = rest.get(..(len % size) as usize) else {
        return Ok(None);
    };
    let mut digesting = Digesting::<D>::new(alloc);
    catch_up::<D>(&mut digesting, pages, page_size, full)?;
    let list = digesting.finish(rest)?;
    let content = levels_of_list::<D>(alloc, list, page_size)?;
    let levels = with_marks::<D>(alloc, page_size, content, Spread { pages, stride }, rest)?;
    Ok(Some(levels))
}

/// The levels of a segment with this content.
pub fn levels_of_content<D: Digest>(
    alloc: Global,
    page_size: NonZeroU16,
    content: &[u8],
) -> Result<SegmentLevels, AllocError> {
    let stride = usize::from(page_size.get());
    let full = content.len() - content.len() % stride;
    let (pages, rest) = content.split_at(full);
    let levels = levels_of::<D>(alloc, content, page_size)?;
    with_marks::<D>(alloc, page_size, levels, Spread { pages, stride }, rest)
}

// Pages, each of which begins so many bytes behind the one before.
#[derive(Clone, Copy)]
struct Spread<'a> {
    pages: &'a [u8],
    stride: usize,
}

impl<'a> Spread<'a> {
    // Page `n`, which has so many bytes.
    fn page(self, n: usize, size: usize) -> Option<&'a [u8]>
        ensures len { IfSome result (λ page. length page.now ≡ size) }
        ensures fits { IfSome result (λ page. n * size + length page.now < 2 ^ 64) }
    {
        let before = n.checked_mul(size)?;
        before.checked_add(size)?;
        let begin = n.checked_mul(self.stride)?;
        self.pages.get(begin..)?.get(..size)
    }
}

// The levels of a content with those of its marks. Behind its whole pages the content has this
// rest, which is less than a page.
fn with_marks<D: Digest>(
    alloc: Global,
    page_size: NonZeroU16,
    content: Levels,
    pages: Spread<'_>,
    rest: &[u8],
) -> Result<SegmentLevels, AllocError> {
    let size = usize::from(page_size.get());
    let mut marking = Marking::new(alloc, page_size);
    for _ in 0..pages.pages.len() / pages.stride.max(1) {
        let Some(page) = pages.page(marking.pages(), size) else {
            return Err(AllocError);
        };
        marking.take_page(page)?;
    }
    let Some(before) = marking.pages().checked_mul(size) else {
        return Err(AllocError);
    };
    if rest.len() >= size || before.checked_add(rest.len()).is_none() {
        return Err(AllocError);
    }
    let marks = marking.finish(rest)?;
    let marks = levels_of_list::<D>(alloc, marks, page_size)?;
    Ok(SegmentLevels { content, marks })
}
