// A closed segment that is read by its pages.
ghost use Rattle.std.specs.Prelude.{◌≡◌, ◌⊎◌, ◌↔◌, ◌<◌, ◌≤◌, ◌^◌, true, false, None};
ghost use Rattle.std.specs.Prelude.{IfOk, IfSome};
ghost use Rattle.std.specs.Int.NonZero.{non_zero_u16_get};
ghost use Rattle.page_digests.specs.declared.error.Error as pages;
ghost use Rattle.segments.specs.PagedReads.{IsBeginBy, CheckGoes, IsAnswerOf, IsDamage, IsToldAs};
ghost use Rattle.segments.specs.PagedReads.{MarkedReadGoes, OpensPaged, RebuildsPaged};
ghost use Rattle.segments.specs.PagedReads.{SegmentNthGoes, SegmentPassGoes, SegmentReadGoes};
ghost use Rattle.segments.specs.PagedReads.{CountStartGoes, FindGoes};
ghost use Rattle.segments.specs.PagedReads.{IsUnmarked, OpensMarks, SettlesGoes, TakesMarks};

use crate::error::Error;
use crate::marked::{Begin, Marks};
use crate::paged_frames::frame_at;
use crate::passing::{PassedPage, pass_page};
use crate::seeking::count_to;
use crate::segment_file::SegmentFile;
use digest::Digest;
use journal::Found;
use page::Sum;
use page_digests::{
    Error as PageError, Levels, PagedContent, Seal, Source, UnopenedBytes, rebuild_levels,
};
use std::alloc::Global;
use std::io;
use std::io::ErrorKind;
use std::marker::Model;
use std::num::NonZeroU16;

/// A closed segment that is read by its pages.
#[derive(Drop)]
pub struct PagedSegment<S: Source + Drop, D: Digest> {
    alloc: Global,
    number: u64,
    content: PagedContent<SegmentFile<S>, D>,
    // Whether its list was built again from its file, or can't be.
    is_settled: bool,
    // The root of its marks that was kept.
    marks_root: Option<[u8; 32]>,
    // Its marks, if they could be opened.
    marks: Option<Marks<SegmentFile<S>, D>>,
    // Where the frame ended that was read last: there a frame begins, or the content ends. So a
    // scan asks for no mark.
    ended: u64,
}

impl<S: Source + Drop, D: Digest> Model for PagedSegment<S, D> {
    ghost use Rattle.segments.specs.PagedReads.{IsPagedSegment, PagedSegmentState};

    ghost Value = { PagedSegmentState };

    ghost view = { λ p. record {
      number = p.number;
      content = p.content;
      is_settled = p.is_settled;
      marks_root = p.marks_root;
      marks = p.marks;
      ended = p.ended;
    } };

    ghost invariant = { λ p. IsPagedSegment D.digest_of (record {
      number = p.number;
      content = p.content;
      is_settled = p.is_settled;
      marks_root = p.marks_root;
      marks = p.marks;
      ended = p.ended;
    }) };
}

impl<S: Source + Drop, D: Digest> PagedSegment<S, D> {
    /// The segment of this number, which has this seal, by its list. If that can't be used it is
    /// built again from the segment's file. It has no marks yet.
    #[tactic(auto, using(crate::proofs::PagedReading::opens_not))]
    pub fn open(
        alloc: Global,
        page_size: NonZeroU16,
        number: u64,
        seal: Seal,
        file: S,
        list: io::Result<S>,
    ) -> Result<Self, Error>
        requires limit { seal.len < 2 ^ 50 }
        ensures opens_pages { let P = non_zero_u16_get page_size in
            OpensPaged D.digest_of P seal number result }
        ensures unmarked { IfOk result (λ p. IsUnmarked p) }
    {
        let file = SegmentFile::of(file);
        match list {
            Ok(list) => {
                let list = SegmentFile::of(list);
                match open_by(alloc, page_size, number, seal, file, list) {
                    Ok(segment) => Ok(segment),
                    Err(error) => Err(told(number, error)),
                }
            }
            Err(_) => match rebuilt(alloc, page_size, number, seal, file) {
                Ok(segment) => Ok(segment),
                Err(error) => Err(told(number, error)),
            },
        }
    }

    /// The segment with its marks, which have this root and stand in this file of its list. If they
    /// can't be opened it has none, and the file is given back with the cause: a read of their top
    /// was refused, or gave bytes of which the root isn't the digest. If there is no file it has
    /// none either. The only error is that memory was refused.
    pub fn with_marks(
        self,
        page_size: NonZeroU16,
        root: [u8; 32],
        file: io::Result<S>,
    ) -> Result<(Self, Option<UnopenedBytes<SegmentFile<S>>>), Error>
        requires { non_zero_u16_get page_size ≡ self.content.page_size }
        ensures { TakesMarks D.digest_of S.reads root file self result }
    {
        let len = self.content.len();
        let (marks, unopened) = match opened_marks(self.alloc, len, page_size, root, file) {
            Ok(opened) => opened,
            Err(error) => return Err(error),
        };
        let PagedSegment {
            alloc,
            number,
            content,
            is_settled,
            marks_root: _,
            marks: _,
            ended: _,
        } = self;
        let segment = PagedSegment {
            alloc,
            number,
            content,
            is_settled,
            marks_root: Some(root),
            marks,
            ended: 0,
        };
        Ok((segment, unopened))
    }

    /// The segment's number.
    pub fn number(&self) -> u64
        ensures { result ≡ self.now.number }
    {
        self.number
    }

    /// Whether this is the segment of this number, which has this seal and marks of this root.
    pub fn is_of(&self, number: u64, seal: &Seal, marks_root: Option<[u8; 32]>) -> bool
        ensures number { result ≡ true → self.now.number ≡ number }
        ensures of { result ≡ true → self.now.content.seal ≡ seal.now }
        ensures marks { result ≡ true → self.now.marks_root ≡ marks_root }
    {
        let own = self.content.seal();
        self.number == number
            && own.len == seal.len
            && own.root == seal.root
            && is_root(self.marks_root, marks_root)
    }

    /// The frame at a logical offset of the segment; `None` at its end and after it. If damage is
    /// found the list is built again from the segment's file, once, in memory.
    ///
    /// `NoFrame` if no frame begins there, by the segment's marks. They aren't asked for where the
    /// frame ended that was read last. If they can't be used the frame is read without them.
    pub fn read<R: Sum>(&mut self, offset: u64) -> Result<Option<Found>, Error>
        ensures { MarkedReadGoes D.digest_of R.sum_of offset self.old self.new result }
    {
        if offset == self.ended {
            return self.read_begin::<R>(offset);
        }
        if self.content.len() <= offset {
            return self.read_begin::<R>(offset);
        }
        match self.may_begin(offset) {
            Ok(true) => self.read_begin::<R>(offset),
            Ok(false) => Err(Error::NoFrame(self.number, offset)),
            Err(PageError::OutOfMemory) => Err(Error::Layer(disk::Error::OutOfMemory)),
            Err(PageError::Damaged) => self.read_and_check::<R>(offset),
            Err(PageError::System(_)) => self.read_and_check::<R>(offset),
        }
    }

    // The frame at an offset where one begins, or the segment has ended.
    fn read_begin<R: Sum>(&mut self, offset: u64) -> Result<Option<Found>, Error>
        requires { (self.old.content.seal.len ≤ offset) ⊎ IsBeginBy D.digest_of offset self.old }
        ensures { MarkedReadGoes D.digest_of R.sum_of offset self.old self.new result }
    {
        match self.read_frame::<R>(offset) {
            Ok(Some(found)) => {
                self.ended = found.end;
                Ok(Some(found))
            }
            Ok(None) => Ok(None),
            Err(error) => Err(error),
        }
    }

    // The frame at an offset of which the marks couldn't be used. The list may have been built
    // again by the read, so they are asked again.
    fn read_and_check<R: Sum>(&mut self, offset: u64) -> Result<Option<Found>, Error>
        requires { offset < self.old.content.seal.len }
        ensures { MarkedReadGoes D.digest_of R.sum_of offset self.old self.new result }
    {
        let number = self.number;
        match self.read_frame::<R>(offset) {
            Ok(found) => {
                let checked = self.may_begin(offset);
                answer_of(number, offset, checked, found)
            }
            Err(error) => Err(error),
        }
    }

    // Whether a frame begins at an offset, by the marks. `true` if they aren't open.
    #[tactic(auto, using(crate::proofs::SegmentMarks::unchecked))]
    fn may_begin(&mut self, offset: u64) -> Result<bool, PageError>
        requires { offset < self.old.content.seal.len }
        ensures { CheckGoes D.digest_of offset self.old self.new result }
    {
        match &mut self.marks {
            Some(marks) => marks.is_begin(self.alloc, &mut self.content, offset),
            None => Ok(true),
        }
    }

    /// The logical offset at which frame `n` of the segment begins, the first being frame 0; `None`
    /// if the segment has no such frame. The frame's page is searched by the marks, and the lengths
    /// of the frames before it in that page are read. If the marks can't be used, the length of each
    /// frame before it is read. If damage is found the list is built again from the segment's file,
    /// once, in memory.
    ///
    /// `Unmarked` if no marks were kept of the segment. `Damaged` if the length of a frame can't be
    /// read. `System` and `Layer` as of [`read`](PagedSegment::read).
    pub fn nth(&mut self, n: u64) -> Result<Option<u64>, Error>
        ensures { SegmentNthGoes D.digest_of n self.old self.new result }
    {
        if self.marks_root.is_none() {
            return Err(Error::Unmarked(self.number));
        }
        if self.content.len() == 0 {
            return Ok(None);
        }
        match self.find(n) {
            Ok(found) => Ok(found),
            Err(error) if is_damage(&error) && !self.is_settled => self.find_again(n),
            Err(error) => Err(told(self.number, error)),
        }
    }

    // Where frame `n` begins, by a list that is built again.
    fn find_again(&mut self, n: u64) -> Result<Option<u64>, Error>
        requires unsettled { self.old.is_settled ≡ false }
        requires marked { self.old.marks_root ≡ None → ⊥ }
        requires some { 0 < self.old.content.seal.len }
        ensures { SegmentNthGoes D.digest_of n self.old self.new result }
    {
        match self.settle() {
            Ok(()) => match self.find(n) {
                Ok(found) => Ok(found),
                Err(error) => Err(told(self.number, error)),
            },
            Err(error) => Err(told(self.number, error)),
        }
    }

    // Where frame `n` begins.
    fn find(&mut self, n: u64) -> Result<Option<u64>, PageError>
        requires { 0 < self.old.content.seal.len }
        ensures { FindGoes D.digest_of n self.old self.new result }
    {
        let start = self.count_start(n)?;
        let count = n.saturating_sub(start.number);
        let (left, there) = count_to(self.alloc, &mut self.content, start.offset, count)?;
        Ok(begin_at(left, there, self.content.len()))
    }

    // From where frame `n` is counted: from the first one of its page; from the segment's first one,
    // if the marks can't be used.
    fn count_start(&mut self, n: u64) -> Result<Begin, PageError>
        requires { 0 < self.old.content.seal.len }
        ensures { CountStartGoes D.digest_of n self.old self.new result }
    {
        let first = Begin {
            number: 0,
            offset: 0,
        };
        match &mut self.marks {
            Some(marks) => match marks.count_start(n) {
                Ok(begin) => Ok(begin),
                Err(PageError::OutOfMemory) => Err(PageError::OutOfMemory),
                Err(PageError::Damaged) => Ok(first),
                Err(PageError::System(_)) => Ok(first),
            },
            None => Ok(first),
        }
    }

    /// Passes the page of a logical offset of the segment, at which a frame can't be read: where to
    /// go on, by the marks. At the segment's end nothing is passed.
    ///
    /// `Unmarked` if no marks were kept of the segment. `Damaged` if they can't be used. `System`
    /// and `Layer` as of [`read`](PagedSegment::read).
    pub fn pass(&mut self, offset: u64) -> Result<PassedPage, Error>
        ensures { SegmentPassGoes D.digest_of offset self.old self.new result }
    {
        if self.marks_root.is_none() {
            return Err(Error::Unmarked(self.number));
        }
        if self.content.len() <= offset {
            return Ok(PassedPage {
                to: offset,
                frames: Some(0),
            });
        }
        match &mut self.marks {
            Some(marks) => match pass_page(self.alloc, marks, &mut self.content, offset) {
                Ok(passed) => Ok(passed),
                Err(error) => Err(told(self.number, error)),
            },
            None => Err(Error::Damaged(self.number)),
        }
    }

    // The frame at an offset, whether or not one begins there.
    #[tactic(auto, using(crate::proofs::SegmentReads::frame_was_read))]
    fn read_frame<R: Sum>(&mut self, offset: u64) -> Result<Option<Found>, Error>
        ensures { SegmentReadGoes D.digest_of R.sum_of offset self.old self.new result }
    {
        match frame_at::<_, D, R>(self.alloc, &mut self.content, offset) {
            Ok(found) => Ok(found),
            Err(error) if is_damage(&error) && !self.is_settled => self.read_again::<R>(offset),
            Err(error) => Err(told(self.number, error)),
        }
    }

    // The frame at an offset, by a list that is built again.
    #[tactic(auto, using(crate::proofs::SegmentReads::not_rebuilt))]
    fn read_again<R: Sum>(&mut self, offset: u64) -> Result<Option<Found>, Error>
        requires { self.old.is_settled ≡ false }
        ensures { SegmentReadGoes D.digest_of R.sum_of offset self.old self.new result }
    {
        match self.settle() {
            Ok(()) => match frame_at::<_, D, R>(self.alloc, &mut self.content, offset) {
                Ok(found) => Ok(found),
                Err(error) => Err(told(self.number, error)),
            },
            Err(error) => Err(told(self.number, error)),
        }
    }

    // Builds the list again from the segment's file. If it can't be built the one before stays.
    fn settle(&mut self) -> Result<(), PageError>
        ensures { SettlesGoes D.digest_of self.old self.new result }
    {
        match self.content.rebuild(self.alloc) {
            Ok(levels) => {
                let Levels { list, top, root: _ } = levels;
                self.content
                    .use_list(self.alloc, SegmentFile::in_memory(list), top);
                self.is_settled = true;
                Ok(())
            }
            Err(error) => {
                self.is_settled = is_damage(&error);
                Err(error)
            }
        }
    }
}

// The segment of this number, by its list. If that can't be used it is built again.
fn open_by<S: Source + Drop, D: Digest>(
    alloc: Global,
    page_size: NonZeroU16,
    number: u64,
    seal: Seal,
    file: SegmentFile<S>,
    list: SegmentFile<S>,
) -> Result<PagedSegment<S, D>, PageError>
    requires limit { seal.len < 2 ^ 50 }
    ensures goes { let P = non_zero_u16_get page_size in
        RebuildsPaged D.digest_of P seal number result }
    ensures unmarked { IfOk result (λ p. IsUnmarked p) }
{
    match PagedContent::open(alloc, file, list, seal, page_size) {
        Ok(content) => Ok(PagedSegment {
            alloc,
            number,
            content,
            is_settled: false,
            marks_root: None,
            marks: None,
            ended: 0,
        }),
        Err(unopened) => rebuilt(alloc, page_size, number, seal, unopened.file),
    }
}

// The segment of this number, by a list that is built from its file.
fn rebuilt<S: Source + Drop, D: Digest>(
    alloc: Global,
    page_size: NonZeroU16,
    number: u64,
    seal: Seal,
    file: SegmentFile<S>,
) -> Result<PagedSegment<S, D>, PageError>
    requires limit { seal.len < 2 ^ 50 }
    ensures goes { let P = non_zero_u16_get page_size in
        RebuildsPaged D.digest_of P seal number result }
    ensures unmarked { IfOk result (λ p. IsUnmarked p) }
{
    let mut file = file;
    let levels = rebuild_levels::<_, D>(alloc, &mut file, &seal, page_size)?;
    let top = levels.top;
    let list = SegmentFile::in_memory(levels.list);
    let content = PagedContent::over(alloc, file, list, seal, page_size, top);
    Ok(PagedSegment {
        alloc,
        number,
        content,
        is_settled: true,
        marks_root: None,
        marks: None,
        ended: 0,
    })
}

// The marks of a content of so many bytes, in the file of its list; or why they can't be opened, and
// the file. There is neither if there is no file. The only error is that memory was refused.
fn opened_marks<S: Source + Drop, D: Digest>(
    alloc: Global,
    len: u64,
    page_size: NonZeroU16,
    root: [u8; 32],
    file: io::Result<S>,
) -> Result<
    (
        Option<Marks<SegmentFile<S>, D>>,
        Option<UnopenedBytes<SegmentFile<S>>>,
    ),
    Error,
>
    requires { len < 2 ^ 50 }
    ensures { let P = non_zero_u16_get page_size in
        OpensMarks D.digest_of S.reads P len root file result }
{
    match file {
        Ok(file) => {
            let file = SegmentFile::of(file);
            match Marks::open(alloc, file, len, page_size, root) {
                Ok(marks) => Ok((Some(marks), None)),
                Err(unopened) => match &unopened.error {
                    PageError::OutOfMemory => Err(Error::Layer(disk::Error::OutOfMemory)),
                    PageError::Damaged => Ok((None, Some(unopened))),
                    PageError::System(_) => Ok((None, Some(unopened))),
                },
            }
        }
        Err(_) => Ok((None, None)),
    }
}

// Where a frame begins, if none is left before it, and it begins before the end of so many bytes.
fn begin_at(left: u64, there: u64, len: u64) -> Option<u64>
    ensures found { IfSome result (λ b. b ≡ there) }
    ensures some { IfSome result (λ b. (left ≡ 0) × (there < len)) }
    ensures none { result ≡ None → left ≡ 0 → len ≤ there }
{
    if left > 0 || len <= there {
        return None;
    }
    Some(there)
}

// What a read answers that found this, by the check that was made after it.
fn answer_of(
    number: u64,
    offset: u64,
    checked: Result<bool, PageError>,
    found: Option<Found>,
) -> Result<Option<Found>, Error>
    ensures { IsAnswerOf number offset checked found result }
{
    match checked {
        Ok(true) => Ok(found),
        Ok(false) => Err(Error::NoFrame(number, offset)),
        Err(PageError::Damaged) => Ok(found),
        Err(PageError::System(_)) => Ok(found),
        Err(PageError::OutOfMemory) => Err(Error::Layer(disk::Error::OutOfMemory)),
    }
}

// Whether two roots are the same, or there is neither.
fn is_root(root: Option<[u8; 32]>, other: Option<[u8; 32]>) -> bool
    ensures { result ≡ true → root ≡ other }
{
    match (root, other) {
        (Some(root), Some(other)) => root == other,
        (None, None) => true,
        _ => false,
    }
}

// Whether what was read isn't as it was, or the file ends before it.
fn is_damage(error: &PageError) -> bool
    ensures { (result ≡ true) ↔ IsDamage error.now }
{
    match error {
        PageError::Damaged => true,
        PageError::System(error) => error.kind() == ErrorKind::UnexpectedEof,
        PageError::OutOfMemory => false,
    }
}

// An error of a segment's content, as the log answers it.
fn told(number: u64, error: PageError) -> Error
    ensures { IsToldAs number error result }
{
    match error {
        PageError::Damaged => Error::Damaged(number),
        PageError::System(error) if error.kind() == ErrorKind::UnexpectedEof => {
            Error::Damaged(number)
        }
        PageError::System(error) => Error::System(error),
        PageError::OutOfMemory => Error::Layer(disk::Error::OutOfMemory),
    }
}
