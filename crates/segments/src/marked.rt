// The marks of a content, which are read by their pages.
ghost use Rattle.std.specs.Prelude.{◌≡◌, ◌<◌, ◌≤◌, ◌+◌, ◌*◌, ◌/◌, ◌^◌, true, false};
ghost use Rattle.std.specs.Prelude.{None, IfErr, IfOk, IfSome};
ghost use Rattle.std.specs.Int.NonZero.{non_zero_u16_get};
ghost use Rattle.page_digests.specs.PagedBytes.{RootFails};
ghost use Rattle.page_digests.specs.Pages.{list_len};
ghost use Rattle.segments.specs.MarkReads.{AreOpenedMarks, FirstGoes, MarkGoes, MarkedStartGoes};
ghost use Rattle.segments.specs.MarkReads.{NthGoes, marks_len, marks_start};
ghost use Rattle.segments.specs.Seeks.{BehindGoes, IsBeginGoes};

use crate::mark::{Mark, mark_of};
use crate::seeking::pass_to;
use digest::Digest;
use page_digests::{Error, LEN_LIMIT, PagedBytes, PagedContent, Source, UnopenedBytes};
use std::alloc::Global;
use std::marker::Model;
use std::num::NonZeroU16;

// How many bytes a mark has.
const MARK_LEN: usize = 8;

// How many bytes a digest has.
const DIGEST_LEN: usize = 32;

/// The marks of a content in its list's file, of which nothing is believed: each page of them is
/// compared with its digest before it is used.
#[derive(Drop)]
pub struct Marks<S: Source, D: Digest> {
    len: usize,
    root: [u8; 32],
    page_size: usize,
    bytes: PagedBytes<S, D>,
}

/// Where a frame begins.
#[derive(Clone, Copy)]
pub struct Begin {
    /// The frame's number; the content's first frame is frame 0.
    pub number: u64,
    /// The logical byte of the content at which it begins.
    pub offset: u64,
}

// Whether no frame begins in page `i`, which has this mark, and isn't the last of so many pages.
fn leads_on(mark: Mark, page_size: usize, i: usize, count: usize) -> bool
    requires { i < count }
    ensures on { result ≡ true → (mark.skip ≡ page_size) × (i + 1 < count) }
    ensures last { result ≡ false → mark.skip ≡ page_size → count ≤ i + 1 }
{
    usize::from(mark.skip) == page_size && i + 1 < count
}

impl<S: Source, D: Digest> Model for Marks<S, D> {
    ghost use Rattle.segments.specs.MarkReads.{AreMarks, MarksState};

    ghost Value = { MarksState };

    ghost view = { λ m. record { len = m.len; root = m.root; bytes = m.bytes } };

    ghost invariant = { λ m. AreMarks D.digest_of m.page_size (record {
      len = m.len;
      root = m.root;
      bytes = m.bytes;
    }) };
}

impl<S: Source + Drop, D: Digest> Marks<S, D> {
    /// Opens the marks of a content of `len` bytes that have this root, by pages of `page_size`
    /// bytes. In the file they stand behind the content's list and top, and their own top behind
    /// them. This reads their top: `Damaged` if the root isn't its digest. After an error the file
    /// is given back.
    pub fn open(
        alloc: Global,
        file: S,
        len: u64,
        page_size: NonZeroU16,
        root: [u8; 32],
    ) -> Result<Self, UnopenedBytes<S>>
        requires { len < LEN_LIMIT }
        ensures opens_marks { let P = non_zero_u16_get page_size in
            IfOk result (λ m. AreOpenedMarks D.digest_of P len root (S.reads file) m) }
        ensures root_fails { let P = non_zero_u16_get page_size in let count = marks_len P len in
            IfErr result (λ u. RootFails D.digest_of (marks_start P len + count)
            (list_len P count) root (S.reads file) (S.reads u.file) u.error) }
    {
        let size = usize::from(page_size.get());
        let len = len as usize;
        let list = len.div_ceil(size) * DIGEST_LEN;
        let start = list + list.div_ceil(size) * DIGEST_LEN;
        let count = len.div_ceil(size) * MARK_LEN;
        match PagedBytes::open(alloc, file, start, count, page_size, &root) {
            Ok(bytes) => Ok(Marks {
                len,
                root,
                page_size: size,
                bytes,
            }),
            Err(unopened) => Err(unopened),
        }
    }

    /// The page behind that of byte `offset` of the content; `None` if that is the last one.
    pub fn page_behind(&self, offset: u64) -> Option<usize>
        requires { offset < self.now.len }
        ensures positive { 0 < self.now.bytes.page_size }
        ensures some { IfSome result (λ i. i ≡ offset / self.now.bytes.page_size + 1) }
        ensures within { IfSome result (λ i. i * self.now.bytes.page_size < self.now.len) }
        ensures none { let P = self.now.bytes.page_size in
            result ≡ None → self.now.len ≤ (offset / P + 1) * P }
    {
        // This use opens the invariant, from which the proof takes that a page has a byte.
        let _ = &self.root;
        let page = offset as usize / self.page_size + 1;
        if self.len <= page * self.page_size {
            return None;
        }
        Some(page)
    }

    /// The mark of page `i` of the content. `Damaged` if a page of the marks that has bytes of it
    /// isn't as it was; the other pages can still be read.
    pub fn mark(&mut self, i: usize) -> Result<Mark, Error>
        requires { i * self.old.bytes.page_size < self.old.len }
        ensures { MarkGoes D.digest_of i self.old self.new result }
    {
        // The use of a field opens the invariant, from which the proof takes where the marks are.
        let _ = &self.root;
        let mut bytes = [0; 8];
        self.bytes.read(i * MARK_LEN, &mut bytes)?;
        Ok(mark_of(bytes))
    }

    /// Where the first frame begins at the begin of a page or behind it. Where the content ends
    /// counts as a begin. This asks for the marks from that page's on to that of the page in which
    /// the frame begins: for one, unless none begins in the page.
    pub fn first_from(&mut self, page: usize) -> Result<Begin, Error>
        requires { page * self.old.bytes.page_size < self.old.len }
        ensures { FirstGoes D.digest_of page self.old self.new result }
    {
        let page_size = self.page_size;
        let count = self.len.div_ceil(page_size);
        let mut i = page;
        let mut mark = self.mark(i)?;
        while leads_on(mark, page_size, i, count) {
            i += 1;
            mark = self.mark(i)?;
        }
        Ok(Begin {
            number: mark.before,
            offset: (i * page_size + usize::from(mark.skip)) as u64,
        })
    }

    /// The page in which frame `n` begins; the last page if the content has no such frame. By each
    /// mark that is read, half of the pages are left.
    pub fn nth(&mut self, n: u64) -> Result<usize, Error>
        requires { 0 < self.old.len }
        ensures { NthGoes D.digest_of n self.old self.new result }
    {
        let mut low = 0;
        let mut high = self.len.div_ceil(self.page_size);
        while low + 1 < high {
            let middle = low + (high - low) / 2;
            let mark = self.mark(middle)?;
            if mark.before <= n {
                low = middle;
            } else {
                high = middle;
            }
        }
        Ok(low)
    }

    /// Where the first frame begins at byte `offset` of a content or behind it. `content` is that
    /// content, of which `self` has the marks. Where it ends counts as a begin. This asks for marks
    /// and, if a frame begins in the offset's page before the offset, for that page of the content.
    pub fn first_behind<F: Source + Drop>(
        &mut self,
        alloc: Global,
        content: &mut PagedContent<F, D>,
        offset: u64,
    ) -> Result<Begin, Error>
        requires within { offset < self.old.len }
        requires len { content.old.seal.len ≡ self.old.len }
        requires page_size { content.old.page_size ≡ self.old.bytes.page_size }
        ensures { BehindGoes D.digest_of offset self.old self.new content.old content.new result }
    {
        let page_size = self.page_size as u64;
        let end = (self.len.div_ceil(self.page_size) * self.page_size) as u64;
        let first = self.first_from((offset / page_size) as usize)?;
        if offset <= first.offset {
            return Ok(first);
        }
        let (frames, there) = pass_to(alloc, content, first.offset, offset)?;
        Ok(Begin {
            number: first.number + frames,
            offset: there.min(end),
        })
    }

    /// Whether a frame begins at byte `offset` of a content. `content` is that content, of which
    /// `self` has the marks.
    pub fn is_begin<F: Source + Drop>(
        &mut self,
        alloc: Global,
        content: &mut PagedContent<F, D>,
        offset: u64,
    ) -> Result<bool, Error>
        requires within { offset < self.old.len }
        requires len { content.old.seal.len ≡ self.old.len }
        requires page_size { content.old.page_size ≡ self.old.bytes.page_size }
        ensures { IsBeginGoes D.digest_of offset self.old self.new content.old content.new result }
    {
        // This use opens the invariant, from which the proof takes that a page has a byte.
        let _ = &self.root;
        let first = self.first_behind(alloc, content, offset)?;
        Ok(first.offset == offset)
    }

    /// From where frame `n` is counted: where the first frame begins in the frame's page, or behind
    /// it. The page is searched as [`nth`](Marks::nth) does.
    pub fn count_start(&mut self, n: u64) -> Result<Begin, Error>
        requires { 0 < self.old.len }
        ensures { MarkedStartGoes D.digest_of n self.old self.new result }
    {
        // This use opens the invariant, from which the proof takes that a page has a byte.
        let _ = &self.root;
        let page = self.nth(n)?;
        self.first_from(page)
    }
}
