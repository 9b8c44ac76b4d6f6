// Where the nth frame of a segment begins.
ghost use Rattle.std.specs.Prelude.{◌≡◌, ◌≢◌};
ghost use Rattle.segments.specs.Log.{IsKeptAs, IsLog, IsSameButReading, LeavesReading};
ghost use Rattle.segments.specs.Manifest.{open_in};
ghost use Rattle.segments.specs.PagedReads.{IsKeptPaged};
ghost use Rattle.segments.specs.Nth.{LogNthGoes, NthOfClosedGoes, NthOfOpenGoes, placed};

use crate::closed::{Fingerprint, PagedSeal};
use crate::error::Error;
use crate::folder::Folder;
use crate::log::SegmentedLog;
use crate::place::Place;
use digest::Digest;
use disk::Blob;
use page::Sum;
use page_digests::LEN_LIMIT;

// An offset of a segment as a place.
fn place_at(segment: u64, found: Option<u64>) -> Option<Place>
    ensures { result ≡ placed segment found }
{
    match found {
        Some(offset) => Some(Place { segment, offset }),
        None => None,
    }
}

impl<F: Folder<B> + Drop, B: Blob + Drop, H: Sum, R: Sum, D: Digest> SegmentedLog<F, B, H, R, D> {
    /// The place of frame `n` of a segment, the first being frame 0; `None` if the segment has no
    /// such frame. Of a closed segment the frame's page is searched by the marks, and the lengths of
    /// the frames before it in that page are read: a few reads, however long the segment is. If the
    /// marks can't be used the length of each frame before it is read, and of the open segment each
    /// frame.
    ///
    /// `NoSegment` where the segment was dropped, or was never there. `Unmarked` where a version
    /// before 0.13 closed it, so that it has no marks. `Damaged` where a page with the length of a
    /// frame isn't as it was. `System`, `Manifest`, `Closed` and `Layer` as of
    /// [`read`](SegmentedLog::read). An error leaves the log as it was.
    #[tactic(auto, using(crate::proofs::SearchesInLog::open_placed, crate::proofs::SearchesInLog::closed_placed, crate::proofs::SearchesInLog::open_not_placed, crate::proofs::SearchesInLog::closed_not_placed))]
    pub fn nth(&mut self, segment: u64, n: u64) -> Result<Option<Place>, Error>
        requires log { IsLog H.sum_of R.sum_of self.old }
        ensures goes { LogNthGoes H.sum_of R.sum_of D.digest_of self.old self.new segment n result }
        ensures ready { IsLog H.sum_of R.sum_of self.new }
        ensures leaves { LeavesReading H.sum_of R.sum_of self.old self.new }
    {
        if segment == self.listing.open() {
            return match self.nth_of_open(n) {
                Ok(found) => Ok(place_at(segment, found)),
                Err(error) => Err(error),
            };
        }
        match self.nth_of_closed(segment, n) {
            Ok(found) => Ok(place_at(segment, found)),
            Err(error) => Err(error),
        }
    }

    // Where frame `n` of the open segment begins: each frame before it is read.
    #[tactic(auto, using(crate::proofs::OpenWalks::walk_begins, crate::proofs::OpenWalks::open_on, crate::proofs::OpenWalks::open_ends, crate::proofs::OpenWalks::open_stops, crate::proofs::OpenWalks::open_fails, crate::proofs::Joining::leaves_current, crate::proofs::Joining::leaves_joins, crate::proofs::Joining::leaves_start))]
    fn nth_of_open(&mut self, n: u64) -> Result<Option<u64>, Error>
        requires log { IsLog H.sum_of R.sum_of self.old }
        ensures goes { NthOfOpenGoes H.sum_of R.sum_of self.old self.new n result }
        ensures ready { IsLog H.sum_of R.sum_of self.new }
        ensures leaves { LeavesReading H.sum_of R.sum_of self.old self.new }
    {
        let mut left = n;
        let mut at = 0;
        loop {
            match self.read_current(at)? {
                Some(found) => {
                    if left == 0 {
                        return Ok(Some(at));
                    }
                    at = found.end;
                    left -= 1;
                }
                None => return Ok(None),
            }
        }
    }

    // Where frame `n` of a closed segment begins.
    #[tactic(auto, using(crate::proofs::PagedReading::kept_as, crate::proofs::SearchesInLog::nth_whole))]
    fn nth_of_closed(&mut self, segment: u64, n: u64) -> Result<Option<u64>, Error>
        requires log { IsLog H.sum_of R.sum_of self.old }
        requires closed { segment ≢ open_in self.old.listing }
        ensures goes { NthOfClosedGoes D.digest_of self.old self.new segment n result }
        ensures ready { IsLog H.sum_of R.sum_of self.new }
        ensures rest { IsSameButReading self.old self.new }
    {
        let Some(closed) = self.listing.closed(segment) else {
            return Err(Error::NoSegment(segment));
        };
        match closed.fingerprint {
            Fingerprint::Whole(_) => Err(Error::Unmarked(segment)),
            Fingerprint::Paged(kept) => self.nth_by_marks(segment, kept, n),
        }
    }

    // Where frame `n` of a closed segment begins that is known by its pages.
    #[tactic(auto, using(crate::proofs::SearchesInLog::nth_too_long, crate::proofs::SearchesInLog::nth_refused))]
    fn nth_by_marks(&mut self, segment: u64, kept: PagedSeal, n: u64) -> Result<Option<u64>, Error>
        requires log { IsLog H.sum_of R.sum_of self.old }
        requires listed { IsKeptAs self.old.listing segment (IsKeptPaged kept) }
        ensures goes { NthOfClosedGoes D.digest_of self.old self.new segment n result }
        ensures ready { IsLog H.sum_of R.sum_of self.new }
        ensures rest { IsSameButReading self.old self.new }
    {
        if kept.seal.len >= LEN_LIMIT {
            return Err(Error::Manifest);
        }
        match self.take_paged(segment, kept) {
            Ok(paged) => {
                let mut paged = paged;
                let found = paged.nth(n);
                self.recent.keep(paged);
                found
            }
            Err(error) => Err(error),
        }
    }
}
