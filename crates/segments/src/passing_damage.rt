// Going on behind a damaged page of a closed segment.
ghost use Rattle.std.specs.Prelude.{◌≡◌, ◌≢◌};
ghost use Rattle.segments.specs.Log.{IsKeptAs, IsLog, IsSameButReading, LeavesReading};
ghost use Rattle.segments.specs.Manifest.{open_in};
ghost use Rattle.segments.specs.PagedReads.{IsKeptPaged};
ghost use Rattle.segments.specs.PassingDamage.{LogPassGoes, PassByMarksGoes, PassInClosedGoes};
ghost use Rattle.segments.specs.PassingDamage.{passed_by, passed_to};

use crate::closed::{Fingerprint, PagedSeal};
use crate::error::Error;
use crate::folder::Folder;
use crate::log::SegmentedLog;
use crate::passing::PassedPage;
use crate::place::Place;
use digest::Digest;
use disk::Blob;
use page::Sum;
use page_digests::LEN_LIMIT;

/// What was passed of a segment, since it can't be read.
#[derive(Clone, Copy, Debug, PartialEq, Eq)]
pub struct Passed {
    /// How many frames were passed, if that is known: of the segment's last page it isn't, nor
    /// where the frames before the place can't be counted in its page.
    pub frames: Option<u64>,
    /// How many logical bytes of the segment were passed.
    pub bytes: u64,
}

// What was passed from an offset on.
pub(crate) fn passed_from(offset: u64, page: &PassedPage) -> Passed
    ensures { result ≡ passed_by offset page.now }
{
    Passed {
        frames: page.frames,
        bytes: page.to.saturating_sub(offset),
    }
}

// The place at an offset of a closed segment that has so many bytes; at its end, the begin of the
// next segment.
fn place_behind(segment: u64, offset: u64, len: u64) -> Place
    requires { segment ≢ 18446744073709551615 }
    ensures { result ≡ passed_to segment offset len }
{
    if offset < len {
        return Place { segment, offset };
    }
    Place {
        segment: segment + 1,
        offset: 0,
    }
}

impl<F: Folder<B> + Drop, B: Blob + Drop, H: Sum, R: Sum, D: Digest> SegmentedLog<F, B, H, R, D> {
    /// Goes on behind a damaged page of a closed segment: for whoever got `Damaged` from
    /// [`next`](SegmentedLog::next) at this place. The place moves to the first frame that begins
    /// behind the page in which it stands, by the segment's marks; if none does, to the begin of the
    /// next segment. The answer says what was passed. Where the page of the place is whole, and a
    /// later one of its frame is damaged, that is the frame behind it all the same: no frame that
    /// can be read is passed.
    ///
    /// A place at the end of a segment moves to the next one, and nothing is passed. A place in the
    /// open segment stays, and nothing is passed either: that segment is read by the layer, which
    /// never answers `Damaged`, so that there is no page to be passed.
    ///
    /// After an error the place is where it was. `Unmarked` where a version before 0.13 closed the
    /// segment, so that nobody knows where the next frame begins. `Damaged` where its marks can't be
    /// used. `NoSegment`, `System`, `Manifest` and `Layer` as of [`read`](SegmentedLog::read).
    pub fn pass_damage(&mut self, place: &mut Place) -> Result<Passed, Error>
        requires log { IsLog H.sum_of R.sum_of self.old }
        ensures goes { let d = D.digest_of in
            LogPassGoes d self.old self.new place.old place.new result }
        ensures ready { IsLog H.sum_of R.sum_of self.new }
        ensures leaves { LeavesReading H.sum_of R.sum_of self.old self.new }
    {
        let at = *place;
        if at.segment == self.listing.open() {
            return Ok(Passed {
                frames: Some(0),
                bytes: 0,
            });
        }
        let (page, len) = self.pass_in_closed(at.segment, at.offset)?;
        *place = place_behind(at.segment, page.to, len);
        Ok(passed_from(at.offset, &page))
    }

    // Passes the page of an offset of a closed segment. Answers the segment's length as well.
    #[tactic(auto, using(crate::proofs::PagedReading::kept_as, crate::proofs::SearchesInLog::pass_whole))]
    fn pass_in_closed(&mut self, segment: u64, offset: u64) -> Result<(PassedPage, u64), Error>
        requires log { IsLog H.sum_of R.sum_of self.old }
        requires closed { segment ≢ open_in self.old.listing }
        ensures goes { PassInClosedGoes D.digest_of self.old self.new segment offset result }
        ensures ready { IsLog H.sum_of R.sum_of self.new }
        ensures rest { IsSameButReading self.old self.new }
    {
        let Some(closed) = self.listing.closed(segment) else {
            return Err(Error::NoSegment(segment));
        };
        match closed.fingerprint {
            Fingerprint::Whole(_) => Err(Error::Unmarked(segment)),
            Fingerprint::Paged(kept) => match self.pass_by_marks(segment, kept, offset) {
                Ok(page) => Ok((page, kept.seal.len)),
                Err(error) => Err(error),
            },
        }
    }

    // Passes the page of an offset of a closed segment that is known by its pages.
    #[tactic(auto, using(crate::proofs::SearchesInLog::pass_too_long, crate::proofs::SearchesInLog::pass_refused))]
    fn pass_by_marks(
        &mut self,
        segment: u64,
        kept: PagedSeal,
        offset: u64,
    ) -> Result<PassedPage, Error>
        requires log { IsLog H.sum_of R.sum_of self.old }
        requires listed { IsKeptAs self.old.listing segment (IsKeptPaged kept) }
        ensures goes { let d = D.digest_of in
            PassByMarksGoes d self.old self.new segment kept.seal.len offset result }
        ensures ready { IsLog H.sum_of R.sum_of self.new }
        ensures rest { IsSameButReading self.old self.new }
    {
        if kept.seal.len >= LEN_LIMIT {
            return Err(Error::Manifest);
        }
        match self.take_paged(segment, kept) {
            Ok(paged) => {
                let mut paged = paged;
                let passed = paged.pass(offset);
                self.recent.keep(paged);
                passed
            }
            Err(error) => Err(error),
        }
    }
}
