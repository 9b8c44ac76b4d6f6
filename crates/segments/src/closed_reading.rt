// Readers of closed segments.
ghost use Rattle.std.specs.Prelude.{◌≡◌};
ghost use Rattle.segments.specs.ClosedSegments.{OpenReaderGoes};
ghost use Rattle.segments.specs.Log.{IsLog};

use crate::closed::Fingerprint;
use crate::closed_segment::ClosedSegment;
use crate::error::Error;
use crate::folder::Folder;
use crate::log::SegmentedLog;
use digest::Digest;
use disk::Blob;
use page::Sum;
use page_digests::LEN_LIMIT;

impl<F: Folder<B> + Drop, B: Blob + Drop, H: Sum, R: Sum, D: Digest> SegmentedLog<F, B, H, R, D> {
    /// A reader of the closed segment of this number, which doesn't borrow the log: see
    /// [`ClosedSegment`]. Each call opens the segment's files anew.
    ///
    /// `NoSegment` where the segment was dropped, isn't closed yet, or was never there. `Damaged`
    /// where the list can't be used, and the segment's file doesn't hold what it held; or where a
    /// version before 0.11 closed the segment, and its file isn't as it was. `System` where the
    /// system refuses a file. `Manifest` where the manifest lists the segment with 1 PiB or more,
    /// which no segment has. `Layer` where the device or memory failed. The log is as it was,
    /// whatever the answer.
    #[tactic(auto, using(crate::proofs::PagedReading::kept_as, crate::proofs::SegmentReaders::pages_opened, crate::proofs::SegmentReaders::memory_opened, crate::proofs::SegmentReaders::pages_not_opened, crate::proofs::SegmentReaders::memory_not_opened))]
    pub fn closed_reader(
        &mut self,
        segment: u64,
    ) -> Result<ClosedSegment<F::Source, H, R, D>, Error>
        requires log { IsLog H.sum_of R.sum_of self.old }
        ensures goes { OpenReaderGoes D.digest_of self.old segment result }
        ensures same { self.new ≡ self.old }
    {
        let Some(closed) = self.listing.closed(segment) else {
            return Err(Error::NoSegment(segment));
        };
        let page_size = self.options.page_size;
        match closed.fingerprint {
            Fingerprint::Whole(kept) => match self.load(segment, kept) {
                Ok(loaded) => Ok(ClosedSegment::in_memory(segment, closed, page_size, loaded)),
                Err(error) => Err(error),
            },
            Fingerprint::Paged(kept) => {
                if kept.seal.len >= LEN_LIMIT {
                    return Err(Error::Manifest);
                }
                match self.open_paged(segment, kept) {
                    Ok(paged) => Ok(ClosedSegment::by_pages(segment, closed, page_size, paged)),
                    Err(error) => Err(error),
                }
            }
        }
    }
}
