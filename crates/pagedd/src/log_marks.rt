// The list and the marks in the file of a closed segment's list, by which its text is taken apart.
use crate::log_files::list_in;
use digest::Digest;
use page_digests::{Levels, levels_of_list};
use segments::{PagedSeal, mark_of};
use std::alloc::{AllocError, Global};
use std::fs;
use std::num::NonZeroU16;

// How many bytes a digest has, and a mark.
const DIGEST: u64 = 32;

const MARK: u64 = 8;

/// The digests of a closed segment's pages, and their marks.
#[derive(Drop)]
pub struct Marked {
    page_size: usize,
    /// How many bytes the segment's content has.
    len: u64,
    list: Vec<u8>,
    marks: Vec<u8>,
    /// Whether the file has the top of the marks too, without which no read uses them.
    pub has_top: bool,
}

/// A part of a segment's text at whose begin a frame begins.
#[derive(Clone, Copy)]
pub struct Stretch {
    pub offset: usize,
    pub end: usize,
    /// How many frames it had; `None` if no marks say it.
    pub frames: Option<u64>,
}

// Where a frame begins in a text, and how many are before it.
#[derive(Clone, Copy)]
struct Begin {
    offset: usize,
    before: u64,
}

impl Begin {
    // What stands from here to the frame before which so many others begin.
    fn to(self, end: usize, before: u64) -> Stretch {
        Stretch {
            offset: self.offset,
            end,
            frames: Some(before.saturating_sub(self.before)),
        }
    }
}

impl Marked {
    /// The digests and the marks of a closed segment of which this was kept, by the file of its
    /// list. `None` if it has no marks, or the file doesn't hold them as they were.
    pub fn of<D: Digest>(
        rt: &HostRuntime,
        folder: &str,
        number: u64,
        page_size: NonZeroU16,
        kept: &PagedSeal,
    ) -> Result<Option<Self>, AllocError> {
        let path = list_in(rt.alloc(), folder, number)?;
        match fs::read(rt, path.as_str()) {
            Ok(bytes) => Marked::of_bytes::<D>(rt.alloc(), page_size, kept, &bytes),
            Err(_) => Ok(None),
        }
    }

    // The same by the bytes of that file.
    fn of_bytes<D: Digest>(
        alloc: Global,
        page_size: NonZeroU16,
        kept: &PagedSeal,
        bytes: &[u8],
    ) -> Result<Option<Self>, AllocError> {
        let size = u64::from(page_size.get());
        let pages = kept.seal.len.div_ceil(size);
        let list_len = pages.saturating_mul(DIGEST);
        let top_len = list_len.div_ceil(size).saturating_mul(DIGEST);
        let marks_at = list_len.saturating_add(top_len);
        let list = range(bytes, 0, list_len);
        let marks = range(bytes, marks_at, pages.saturating_mul(MARK));
        let (Some(list), Some(marks), Some(root)) = (list, marks, kept.marks) else {
            return Ok(None);
        };
        let list = levels_over::<D>(alloc, page_size, list)?;
        let marks = levels_over::<D>(alloc, page_size, marks)?;
        if list.root != kept.seal.root || marks.root != root {
            return Ok(None);
        }
        let behind = marks_at.saturating_add(marks.list.len() as u64);
        let top = range(bytes, behind, marks.top.len() as u64);
        Ok(Some(Marked {
            page_size: size as usize,
            len: kept.seal.len,
            has_top: top == Some(marks.top.as_slice()),
            list: list.list,
            marks: marks.list,
        }))
    }

    /// A text of the segment, taken apart behind damage: a stretch ends where the first frame
    /// begins in a page that is what it was, if the page before isn't. The segment had so many
    /// frames.
    pub fn stretches<D: Digest>(
        &self,
        alloc: Global,
        text: &[u8],
        frames: u64,
    ) -> Result<Vec<Stretch>, AllocError> {
        let mut stretches = Vec::new(alloc);
        let mut from = Begin {
            offset: 0,
            before: 0,
        };
        let mut goes_on = true;
        for (i, page) in text.chunks(self.page_size.max(1)).enumerate() {
            if !self.is_sound::<D>(i, page) {
                goes_on = false;
            } else if !goes_on {
                if let Some(begin) = self.begin(i) {
                    stretches.push(from.to(begin.offset, begin.before))?;
                    from = begin;
                    goes_on = true;
                }
            }
        }
        stretches.push(from.to(text.len(), frames))?;
        Ok(stretches)
    }

    // Whether this page of a text, which has number `i`, is what it was.
    fn is_sound<D: Digest>(&self, i: usize, page: &[u8]) -> bool {
        let begin = i.saturating_mul(self.page_size) as u64;
        let len = self.len.saturating_sub(begin).min(self.page_size as u64);
        let digest = range(&self.list, (i as u64).saturating_mul(DIGEST), DIGEST);
        match (digest, page.get(..len as usize)) {
            (Some(digest), Some(page)) => D::digest(page).as_slice() == digest,
            _ => false,
        }
    }

    // Where the first frame begins that begins in page `i`, if one does.
    fn begin(&self, i: usize) -> Option<Begin> {
        let bytes = range(&self.marks, (i as u64).saturating_mul(MARK), MARK)?;
        let mark = mark_of(*bytes.first_chunk::<8>()?);
        let skip = usize::from(mark.skip);
        (skip < self.page_size).then_some(Begin {
            offset: i.saturating_mul(self.page_size).saturating_add(skip),
            before: mark.before,
        })
    }
}

// So many of these bytes, if there are so many from `at` on.
fn range(bytes: &[u8], at: u64, len: u64) -> Option<&[u8]> {
    let at = usize::try_from(at).ok()?;
    let len = usize::try_from(len).ok()?;
    bytes.get(at..)?.get(..len)
}

// The levels over these bytes.
fn levels_over<D: Digest>(
    alloc: Global,
    page_size: NonZeroU16,
    bytes: &[u8],
) -> Result<Levels, AllocError> {
    levels_of_list::<D>(alloc, Vec::from_slice(alloc, bytes)?, page_size)
}
