// Reading closed segments by their pages.
ghost use Rattle.std.specs.Prelude.{◌≡◌, ◌<◌, ◌^◌, IfOk};
ghost use Rattle.segments.specs.Log.{IsKeptAs, IsLog, IsSameButReading, LogReadBegins, LogReadGoes};
ghost use Rattle.segments.specs.PagedReads.{IsKeptPaged, IsUnmarked, MarksPaged, OpensPaged};

use crate::closed::PagedSeal;
use crate::error::Error;
use crate::folder::Folder;
use crate::log::SegmentedLog;
use crate::paged_segment::PagedSegment;
use crate::place::Place;
use digest::Digest;
use disk::Blob;
use journal::Found;
use page::Sum;
use page_digests::LEN_LIMIT;

impl<F: Folder<B> + Drop, B: Blob + Drop, H: Sum, R: Sum, D: Digest> SegmentedLog<F, B, H, R, D> {
    // The frame at a place of a closed segment that is known by its pages.
    #[tactic(auto, using(crate::proofs::PagedReading::too_long, crate::proofs::PagedReading::not_opened))]
    pub(crate) fn read_paged(
        &mut self,
        place: Place,
        kept: PagedSeal,
    ) -> Result<Option<Found>, Error>
        requires log { IsLog H.sum_of R.sum_of self.old }
        requires listed { IsKeptAs self.old.listing place.segment (IsKeptPaged kept) }
        ensures goes { LogReadGoes H.sum_of R.sum_of D.digest_of self.old self.new place result }
        ensures begins { LogReadBegins D.digest_of self.new place result }
        ensures ready { IsLog H.sum_of R.sum_of self.new }
        ensures rest { IsSameButReading self.old self.new }
    {
        if kept.seal.len >= LEN_LIMIT {
            return Err(Error::Manifest);
        }
        match self.take_paged(place.segment, kept) {
            Ok(segment) => {
                let mut segment = segment;
                let found = segment.read::<R>(place.offset);
                self.recent.keep(segment);
                found
            }
            Err(error) => Err(error),
        }
    }

    // Takes the closed segment of this number if it is kept open, or else opens it.
    pub(crate) fn take_paged(
        &mut self,
        number: u64,
        kept: PagedSeal,
    ) -> Result<PagedSegment<F::Source, D>, Error>
        requires log { IsLog H.sum_of R.sum_of self.old }
        requires limit { kept.seal.len < 2 ^ 50 }
        ensures goes { OpensPaged D.digest_of self.old.page_size kept.seal number result }
        ensures marks { IfOk result (λ p. p.marks_root ≡ kept.marks) }
        ensures ready { IsLog H.sum_of R.sum_of self.new }
        ensures rest { IsSameButReading self.old self.new }
    {
        match self.recent.take(number, &kept.seal, kept.marks) {
            Some(segment) => Ok(segment),
            None => self.open_paged(number, kept),
        }
    }

    // Opens the closed segment of this number, which has this seal, and its marks, if it has such.
    #[tactic(auto, using(crate::proofs::OpensMarked::opens_so, crate::proofs::OpensMarked::opens_within, crate::proofs::OpensMarked::opens_paged))]
    pub(crate) fn open_paged(
        &mut self,
        number: u64,
        kept: PagedSeal,
    ) -> Result<PagedSegment<F::Source, D>, Error>
        requires limit { kept.seal.len < 2 ^ 50 }
        ensures goes { OpensPaged D.digest_of self.old.page_size kept.seal number result }
        ensures marks { IfOk result (λ p. p.marks_root ≡ kept.marks) }
        ensures same { self.new ≡ self.old }
    {
        let page_size = self.options.page_size;
        match self.folder.source(number) {
            Ok(file) => {
                let list = self.folder.list_source(number);
                match PagedSegment::open(self.alloc, page_size, number, kept.seal, file, list) {
                    Ok(segment) => self.mark_paged(number, kept.marks, segment),
                    Err(error) => Err(error),
                }
            }
            Err(error) => Err(Error::System(error)),
        }
    }

    // Gives a closed segment its marks, if any were kept.
    #[tactic(auto, using(crate::proofs::OpensMarked::opens_marked, crate::proofs::OpensMarked::has_root))]
    fn mark_paged(
        &mut self,
        number: u64,
        marks_root: Option<[u8; 32]>,
        segment: PagedSegment<F::Source, D>,
    ) -> Result<PagedSegment<F::Source, D>, Error>
        requires limit { segment.content.seal.len < 2 ^ 50 }
        requires page_size { segment.content.page_size ≡ self.old.page_size }
        requires unmarked { IsUnmarked segment }
        ensures goes { MarksPaged segment result }
        ensures marks { IfOk result (λ p. p.marks_root ≡ marks_root) }
        ensures same { self.new ≡ self.old }
    {
        match marks_root {
            Some(root) => {
                let marks = self.folder.list_source(number);
                match segment.with_marks(self.options.page_size, root, marks) {
                    // Where its marks aren't open it is read without them.
                    Ok((segment, _)) => Ok(segment),
                    Err(error) => Err(error),
                }
            }
            None => Ok(segment),
        }
    }
}
