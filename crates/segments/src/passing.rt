// Pages that are passed, since they can't be read.
ghost use Rattle.std.specs.Prelude.{◌≡◌, ◌<◌};
ghost use Rattle.segments.specs.Passing.{PassPageGoes};

use crate::marked::Marks;
use digest::Digest;
use page_digests::{Error, PagedContent, Source};
use std::alloc::Global;

/// Where to go on behind a page, and what is passed by that.
#[derive(Clone, Copy)]
pub struct PassedPage {
    /// The logical byte of the content at which to go on: a frame begins there, the first behind
    /// the page, or the content ends.
    pub to: u64,
    /// How many frames are passed, if that is known.
    pub frames: Option<u64>,
}

/// Where a reader goes on that couldn't read the frame at byte `offset` of a content, since a page
/// that the frame touches isn't as it was. `marks` are those of the content. The reader passes each
/// frame that begins in the offset's page at the offset or behind it.
///
/// For the last page, the number of these frames isn't known. For another page it isn't known if
/// the frames before the offset can't be counted: a mark can't be read, or a frame begins before
/// the offset in the same page, and that page can't be read.
///
/// `Damaged` and `System` are errors of the marks: the mark of a page behind the offset's can't be
/// read. `OutOfMemory`: memory was refused. After an error marks and content can still be read.
pub fn pass_page<S: Source + Drop, F: Source + Drop, D: Digest>(
    alloc: Global,
    marks: &mut Marks<S, D>,
    content: &mut PagedContent<F, D>,
    offset: u64,
) -> Result<PassedPage, Error>
    requires within { offset < marks.old.len }
    requires len { content.old.seal.len ≡ marks.old.len }
    requires page_size { content.old.page_size ≡ marks.old.bytes.page_size }
    ensures { PassPageGoes D.digest_of offset marks.old marks.new content.old content.new result }
{
    let Some(page) = marks.page_behind(offset) else {
        return Ok(PassedPage {
            to: content.len(),
            frames: None,
        });
    };
    let next = marks.first_from(page)?;
    let frames = match marks.first_behind(alloc, content, offset) {
        Ok(first) => Some(next.number.saturating_sub(first.number)),
        Err(Error::OutOfMemory) => return Err(Error::OutOfMemory),
        Err(Error::Damaged) => None,
        Err(Error::System(_)) => None,
    };
    Ok(PassedPage {
        to: next.offset.min(content.len()),
        frames,
    })
}
