// The marks of a content that comes page by page.
ghost use Rattle.std.specs.Prelude.{◌≡◌, ◌<◌, ◌≤◌, ◌+◌, ◌*◌, ◌^◌, ℕ, List, length, slice_index};
ghost use Rattle.std.specs.Prelude.{◌-◌, IfOk, OnOk};
ghost use Rattle.std.specs.Int.NonZero.{non_zero_u16_get};
ghost use Rattle.segments.specs.Marking.{FinishesMarks, IsMarked, PassesPage, PushesPage};
ghost use Rattle.segments.specs.Marking.{TakesMarkedPage, if_cut};

use crate::mark::{Mark, bytes_of_mark};
use journal::{AFTER, IN_FRONT, record_len_of};
use std::alloc::{AllocError, Global};
use std::marker::Model;
use std::num::NonZeroU16;

/// The marks so far of a content that comes page by page, as while the content is written.
#[derive(Drop)]
pub struct Marking {
    page_size: usize,
    pages: usize,
    before: u64,
    skip: usize,
    is_cut: bool,
    marks: Vec<u8>,
}

// The frames that begin in a page, and where the next one does.
#[derive(Clone, Copy)]
struct PageEnd {
    // How many frames.
    frames: usize,
    // How many bytes behind the page the next frame begins.
    skip: usize,
    // Whether the first byte of the content behind the page is to be added to that: it is the
    // second byte of the length of the last frame.
    is_cut: bool,
}

impl Model for Marking {
    ghost use Rattle.segments.specs.Marking.{IsMarking, MarkingState};

    ghost Value = { MarkingState };

    ghost view = { λ m. record {
      page_size = m.page_size;
      pages = m.pages;
      marks = m.marks.items;
      before = m.before;
      skip = m.skip;
      is_cut = m.is_cut;
    } };

    ghost invariant = { λ m. IsMarking (record {
      page_size = m.page_size;
      pages = m.pages;
      marks = m.marks.items;
      before = m.before;
      skip = m.skip;
      is_cut = m.is_cut;
    }) };
}

// How many bytes behind a page's begin the first frame begins.
fn first_begin(skip: usize, is_cut: bool, page: &[u8]) -> usize
    requires some { 0 < length page.now }
    requires small { skip + if_cut is_cut 255 ≤ 65542 }
    ensures first { result ≡ skip + if_cut is_cut (slice_index page.now 0) }
    ensures near { result ≤ 65542 }
{
    if is_cut {
        skip + usize::from(page[0])
    } else {
        skip
    }
}

// Passes the frames of a page, the first of which begins `first` bytes behind the page's begin, as
// far as the page has both bytes of their lengths. Answers how many, and where the next one begins.
fn pass_frames(page: &[u8], first: usize) -> (usize, usize)
    requires near { first ≤ 65542 }
    requires short { length page.now < 2 ^ 16 }
    ensures passes { PassesPage page.now first result.0
        (λ content end. end + result.1 - length page.now) }
    ensures all { length page.now ≤ result.1 + 1 }
    ensures few { result.0 * 7 + first ≤ result.1 }
    ensures near { result.1 ≤ 65542 + length page.now }
{
    let mut frames = 0;
    let mut at = first;
    while at + 1 < page.len() {
        at += IN_FRONT + record_len_of(&page[at..]) + AFTER;
        frames += 1;
    }
    (frames, at)
}

// The frames that begin in a page, the first of them `first` bytes behind the page's begin.
fn page_end(page: &[u8], first: usize) -> PageEnd
    requires near { first ≤ 65542 }
    requires short { length page.now < 2 ^ 16 }
    ensures passes { PassesPage page.now first result.frames
        (λ content end. end + result.skip + if_cut result.is_cut (slice_index content end)) }
    ensures near { result.skip + if_cut result.is_cut 255 ≤ 65542 }
    ensures few { result.frames * 7 + first ≤ length page.now + result.skip }
{
    let (frames, at) = pass_frames(page, first);
    if at < page.len() {
        return PageEnd {
            frames: frames + 1,
            skip: IN_FRONT + AFTER - 1 + usize::from(page[at]) * 256,
            is_cut: true,
        };
    }
    PageEnd {
        frames,
        skip: at - page.len(),
        is_cut: false,
    }
}

impl Marking {
    /// No page is marked yet.
    pub fn new(alloc: Global, page_size: NonZeroU16) -> Self
        ensures marked { (content : List ℕ) → IsMarked content result }
        ensures page_size { result.page_size ≡ non_zero_u16_get page_size }
        ensures pages { result.pages ≡ 0 }
    {
        Marking {
            page_size: usize::from(page_size.get()),
            pages: 0,
            before: 0,
            skip: 0,
            is_cut: false,
            marks: Vec::new(alloc),
        }
    }

    /// How many pages were taken.
    pub fn pages(&self) -> usize
        ensures { result ≡ self.now.pages }
    {
        self.pages
    }

    // Marks the next page, which has a byte at least. After an error nothing was taken.
    #[tactic(auto, using(crate::proofs::Pushes::few_frames, crate::proofs::Pushes::few_pages))]
    fn push_page(&mut self, page: &[u8]) -> Result<(), AllocError>
        requires some { 0 < length page.now }
        requires short { length page.now ≤ self.old.page_size }
        requires fits { self.old.pages * self.old.page_size + length page.now < 2 ^ 64 }
        ensures { PushesPage page.now self.old self.new result }
    {
        let first = first_begin(self.skip, self.is_cut, page);
        let mark = Mark {
            before: self.before,
            skip: first.min(self.page_size) as u16,
        };
        self.marks.extend_from_slice(&bytes_of_mark(mark))?;
        let end = page_end(page, first);
        self.pages += 1;
        self.before += end.frames as u64;
        self.skip = end.skip;
        self.is_cut = end.is_cut;
        Ok(())
    }

    /// Takes the content's next page, a whole one. The only error is that memory was refused; then
    /// nothing was taken.
    pub fn take_page(&mut self, page: &[u8]) -> Result<(), AllocError>
        requires whole { length page.now ≡ self.old.page_size }
        requires fits { self.old.pages * self.old.page_size + length page.now < 2 ^ 64 }
        ensures { TakesMarkedPage page.now self.old self.new result }
    {
        // This use opens the invariant, from which the proof takes that a page has a byte.
        let _ = &self.page_size;
        self.push_page(page)
    }

    // Marks what the content has behind its whole pages, if that has a byte.
    #[tactic(auto, using(crate::proofs::Pushes::marks_done, crate::proofs::Pushes::rest_pushed))]
    fn push_rest(&mut self, rest: &[u8]) -> Result<(), AllocError>
        requires short { length rest.now < self.old.page_size }
        requires fits { self.old.pages * self.old.page_size + length rest.now < 2 ^ 64 }
        ensures { OnOk result (FinishesMarks rest.now self.old self.new.marks) }
    {
        if rest.is_empty() {
            return Ok(());
        }
        self.push_page(rest)
    }

    /// The content's marks. `rest` is what the content has behind the pages that were taken: less
    /// than a page, perhaps nothing. The only error is that memory was refused.
    pub fn finish(self, rest: &[u8]) -> Result<Vec<u8>, AllocError>
        requires short { length rest.now < self.page_size }
        requires fits { self.pages * self.page_size + length rest.now < 2 ^ 64 }
        ensures { IfOk result (λ bytes. FinishesMarks rest.now self bytes.items) }
    {
        let mut marking = self;
        marking.push_rest(rest)?;
        Ok(marking.marks)
    }
}
