// The levels of a segment whose content comes page by page.
ghost use Rattle.std.specs.Prelude.{◌≡◌, ◌≤◌, ◌<◌, ◌+◌, ◌*◌, ◌^◌, ℕ, List, length, IfOk};
ghost use Rattle.std.specs.Int.NonZero.{non_zero_u16_get};
ghost use Rattle.segments.specs.SegmentLevels.{FinishesSegment, GoesOnWith, IsSegmentDigested};
ghost use Rattle.segments.specs.SegmentLevels.{TakesSegmentPage, levels_bytes};

use crate::marking::Marking;
use digest::Digest;
use page_digests::{Digesting, Levels, levels_of_list};
use std::alloc::{AllocError, Global};
use std::marker::Model;
use std::num::NonZeroU16;

/// The levels of a segment: those of its content, and those of its marks.
#[derive(Drop)]
pub struct SegmentLevels {
    /// The levels of the content.
    pub content: Levels,
    /// The levels of the marks: `list` has the marks, eight bytes for each page of the content,
    /// `top` the digests of the pages that these bytes have, and `root` is the digest of `top`.
    pub marks: Levels,
}

impl SegmentLevels {
    /// The bytes of the list's file: the content's list, its top, the marks, and the digests of
    /// their pages. The only error is that memory was refused.
    pub fn bytes(&self, alloc: Global) -> Result<Vec<u8>, AllocError>
        ensures { IfOk result (λ bytes. bytes.items ≡ levels_bytes self.now) }
    {
        let mut bytes = Vec::from_slice(alloc, &self.content.list)?;
        bytes.extend_from_slice(&self.content.top)?;
        bytes.extend_from_slice(&self.marks.list)?;
        bytes.extend_from_slice(&self.marks.top)?;
        Ok(bytes)
    }
}

/// The digests and the marks so far of a segment whose content comes page by page, as while the
/// content is written.
#[derive(Drop)]
pub struct SegmentDigesting<D: Digest> {
    page_size: NonZeroU16,
    digesting: Digesting<D>,
    marking: Marking,
}

impl<D: Digest> Model for SegmentDigesting<D> {
    ghost use Rattle.std.specs.Prelude.{◌≡◌};
    ghost use Rattle.std.specs.Int.NonZero.{non_zero_u16_get};
    ghost use Rattle.segments.specs.SegmentLevels.{SegmentDigestingState};

    ghost Value = { SegmentDigestingState };

    ghost view = { λ s. record { digested = s.digesting; marked = s.marking } };

    ghost invariant = { λ s. s.marking.page_size ≡ non_zero_u16_get s.page_size };
}

impl<D: Digest> SegmentDigesting<D> {
    /// No page is digested yet. A page has `page_size` bytes.
    pub fn new(alloc: Global, page_size: NonZeroU16) -> Self
        ensures begun { let P = non_zero_u16_get page_size in
            (content : List ℕ) → IsSegmentDigested D.digest_of P content result }
        ensures pages { result.digested.pages ≡ 0 }
        ensures page_size { result.marked.page_size ≡ non_zero_u16_get page_size }
    {
        SegmentDigesting {
            page_size,
            digesting: Digesting::new(alloc),
            marking: Marking::new(alloc, page_size),
        }
    }

    /// How many pages are digested.
    pub fn pages(&self) -> usize
        ensures { result ≡ self.now.digested.pages }
    {
        self.digesting.pages()
    }

    /// Takes the content's next page, a whole one. The only error is that memory was refused; then
    /// the same page is the next one still.
    pub fn take_page(&mut self, page: &[u8]) -> Result<(), AllocError>
        requires whole { length page.now ≡ self.old.marked.page_size }
        requires fits { self.old.digested.pages * self.old.marked.page_size + length page.now
            < 2 ^ 64 }
        ensures { TakesSegmentPage D.digest_of page.now self.old self.new result }
    {
        self.mark_page(page)?;
        self.digesting.take_page(page)
    }

    // Marks the page that is digested next, unless that was done before memory was refused.
    fn mark_page(&mut self, page: &[u8]) -> Result<(), AllocError>
        requires whole { length page.now ≡ self.old.marked.page_size }
        requires fits { self.old.digested.pages * self.old.marked.page_size + length page.now
            < 2 ^ 64 }
        ensures digested { self.new.digested ≡ self.old.digested }
        ensures page_size { self.new.marked.page_size ≡ self.old.marked.page_size }
        ensures more { IfOk result (λ u. self.old.digested.pages ≤ self.old.marked.pages
            → self.old.digested.pages + 1 ≤ self.new.marked.pages) }
        ensures goes_on { GoesOnWith D.digest_of page.now self.old self.new }
    {
        if self.digesting.pages() < self.marking.pages() {
            return Ok(());
        }
        self.marking.take_page(page)
    }

    /// The segment's levels. `rest` is what the content has behind the pages that were taken: less
    /// than a page, perhaps nothing. The only error is that memory was refused.
    pub fn finish(self, alloc: Global, rest: &[u8]) -> Result<SegmentLevels, AllocError>
        requires short { length rest.now < self.marked.page_size }
        requires fits { self.marked.pages * self.marked.page_size + length rest.now < 2 ^ 64 }
        ensures { IfOk result (λ levels. FinishesSegment D.digest_of rest.now self levels) }
    {
        let SegmentDigesting {
            page_size,
            digesting,
            marking,
        } = self;
        let marks = marking.finish(rest)?;
        let list = digesting.finish(rest)?;
        let content = levels_of_list::<D>(alloc, list, page_size)?;
        let marks = levels_of_list::<D>(alloc, marks, page_size)?;
        Ok(SegmentLevels { content, marks })
    }
}
