// What a closed segment's file holds, beside what was kept of it, and the file of its list.
use crate::ending::fail;
use crate::log_files::list_in;
use crate::log_levels::{levels_in, levels_of_content};
use crate::log_put::write_file;
use crate::status::Status;
use digest::Digest;
use page_digests::Seal;
use segments::{Closed, Fingerprint, PagedSeal, SegmentLevels};
use std::alloc::{AllocError, Global};
use std::io::ErrorKind;
use std::num::NonZeroU16;
use std::{fmt, fs};

/// How the file of a closed segment stands to what was kept of it.
#[derive(Drop)]
pub enum Held {
    /// It isn't what it was when the segment was closed.
    Other,
    /// It is, and was kept whole.
    Whole,
    /// It is, and was kept by its pages. The file of its list is to hold this.
    Paged(List),
}

impl Held {
    /// How a file of these bytes stands to what was kept of a closed segment.
    pub fn of<D: Digest>(
        alloc: Global,
        page_size: NonZeroU16,
        closed: &Closed,
        bytes: &[u8],
    ) -> Result<Self, AllocError> {
        let kept = match closed.fingerprint {
            Fingerprint::Whole(kept) if kept.is_of(bytes) => return Ok(Held::Whole),
            Fingerprint::Whole(_) => return Ok(Held::Other),
            Fingerprint::Paged(kept) => kept,
        };
        let Some(levels) = levels_in::<D>(alloc, page_size, bytes, kept.seal.len)? else {
            return Ok(Held::Other);
        };
        Ok(if levels.content.root == kept.seal.root {
            Held::Paged(List {
                levels,
                marks: kept.marks,
            })
        } else {
            Held::Other
        })
    }
}

/// What the file of a closed segment's list is to hold.
#[derive(Drop)]
pub struct List {
    levels: SegmentLevels,
    /// The root of the segment's marks, as it was kept. `None` if the segment has no marks.
    marks: Option<[u8; 32]>,
}

impl List {
    // How many bytes of the file are list and top.
    fn len_without_marks(&self) -> usize {
        let content = &self.levels.content;
        content.list.len().saturating_add(content.top.len())
    }

    // The bytes of the file: the list, and then the top; then the marks and their top, if the
    // segment has marks.
    fn bytes(&self, alloc: Global) -> Result<Vec<u8>, AllocError> {
        if self.marks.is_some() {
            return self.levels.bytes(alloc);
        }
        let mut bytes = Vec::from_slice(alloc, &self.levels.content.list)?;
        bytes.extend_from_slice(&self.levels.content.top)?;
        Ok(bytes)
    }

    // The state of a file of these bytes.
    fn state_of(&self, alloc: Global, bytes: &[u8]) -> Result<ListState, AllocError> {
        let wanted = self.bytes(alloc)?;
        let front = wanted.get(..self.len_without_marks()).unwrap_or_default();
        let fits = match self.marks {
            Some(root) => root == self.levels.marks.root,
            None => true,
        };
        Ok(if !bytes.starts_with(front) {
            ListState::Wrong
        } else if fits && bytes.starts_with(&wanted) {
            ListState::Whole
        } else {
            ListState::Unmarked
        })
    }
}

/// What is to be kept of a segment with this content, by its pages, and what the file of its list
/// is to hold.
pub fn sealed<D: Digest>(
    alloc: Global,
    page_size: NonZeroU16,
    records: u64,
    content: &[u8],
) -> Result<(Closed, List), AllocError> {
    let levels = levels_of_content::<D>(alloc, page_size, content)?;
    let root = levels.content.root;
    let marks = Some(levels.marks.root);
    let seal = Seal {
        len: content.len() as u64,
        root,
    };
    let closed = Closed {
        records,
        fingerprint: Fingerprint::Paged(PagedSeal {
            number: D::NUMBER,
            seal,
            marks,
        }),
    };
    Ok((closed, List { levels, marks }))
}

/// Whether the same was kept of two segments' contents.
pub fn are_same(one: &Closed, other: &Closed) -> bool {
    match (&one.fingerprint, &other.fingerprint) {
        (Fingerprint::Whole(one), Fingerprint::Whole(other)) => {
            one.len == other.len && one.digest == other.digest
        }
        (Fingerprint::Paged(one), Fingerprint::Paged(other)) => {
            let (own, its) = (one.seal, other.seal);
            let are_sealed_alike = own.len == its.len && own.root == its.root;
            are_sealed_alike && one.number == other.number && one.marks == other.marks
        }
        _ => false,
    }
}

/// How much a closed segment has: the bytes of its file, or those of its content.
#[derive(Clone, Copy)]
pub struct Size<'a>(pub &'a Closed);

impl fmt::Display for Size<'_> {
    fn fmt<W: fmt::Write>(&self, f: &mut fmt::Formatter<W>) -> fmt::Result {
        match &self.0.fingerprint {
            Fingerprint::Whole(kept) => write!(f, "{} bytes", kept.len),
            Fingerprint::Paged(kept) => write!(f, "{} content bytes", kept.seal.len),
        }
    }
}

/// The state of the file of a closed segment's list.
#[derive(Clone, Copy, PartialEq, Eq)]
pub enum ListState {
    /// It begins with the list and the top, and then the marks and their top if the segment has
    /// marks.
    Whole,
    /// It isn't there.
    Missing,
    /// It holds something else, or the system refuses to read it.
    Wrong,
    /// It begins with the list and the top. What it has of marks isn't what was kept.
    Unmarked,
}

impl ListState {
    /// The state of the file of a list that is to hold this.
    pub fn of(
        rt: &HostRuntime,
        folder: &str,
        number: u64,
        list: &List,
    ) -> Result<Self, AllocError> {
        let path = list_in(rt.alloc(), folder, number)?;
        match fs::read(rt, path.as_str()) {
            Ok(bytes) => list.state_of(rt.alloc(), &bytes),
            Err(error) if error.kind() == ErrorKind::NotFound => Ok(ListState::Missing),
            Err(_) => Ok(ListState::Wrong),
        }
    }

    /// One word for the state.
    pub fn name(self) -> &'static str {
        match self {
            ListState::Whole => "whole",
            ListState::Missing => "missing",
            ListState::Wrong => "wrong",
            ListState::Unmarked => "unmarked",
        }
    }
}

/// Writes the file of a segment's list, unless it holds the list already. It is written in place,
/// since whoever reads a list compares it with its root, and computes it again if it isn't whole.
pub fn put_list(rt: &HostRuntime, folder: &str, number: u64, list: &List) -> Result<(), Status> {
    if ListState::of(rt, folder, number, list)? == ListState::Whole {
        return Ok(());
    }
    let path = list_in(rt.alloc(), folder, number)?;
    write_file(rt, path.as_str(), &list.bytes(rt.alloc())?)
}

/// Removes the file of a segment's list, if it is there.
pub fn remove_list(rt: &HostRuntime, folder: &str, number: u64) -> Result<(), Status> {
    let path = list_in(rt.alloc(), folder, number)?;
    match fs::remove_file(rt, path.as_str()) {
        Err(error) if error.kind() != ErrorKind::NotFound => Err(fail(rt, path.as_str(), error)),
        _ => Ok(()),
    }
}
