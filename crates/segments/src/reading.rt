// Reading records.
ghost use Rattle.std.specs.Prelude.{◌≡◌, ◌≢◌};
ghost use Rattle.segments.specs.Log.{IsLog, IsSameButCurrent, IsSameButReading, LeavesReading};
ghost use Rattle.segments.specs.Log.{IsKeptAs, LogReadBegins, LogReadGoes, TakeLoadedGoes};
ghost use Rattle.segments.specs.Owned.{OwnedReadLeaves, OwnedReadGoes};
ghost use Rattle.segments.specs.Manifest.{open_in};
ghost use Rattle.segments.specs.declared.closed.Fingerprint.TheVariants.{Whole};

use crate::closed::{FileDigest, Fingerprint};
use crate::error::Error;
use crate::folder::{Asked, Folder};
use crate::loaded::Loaded;
use crate::log::SegmentedLog;
use crate::place::Place;
use digest::Digest;
use disk::Blob;
use journal::Found;
use page::Sum;

impl<F: Folder<B> + Drop, B: Blob + Drop, H: Sum, R: Sum, D: Digest> SegmentedLog<F, B, H, R, D> {
    // Takes the closed segment of this number from memory, or else reads it. `Damaged` where its
    // file hasn't the length and the digest that are listed.
    fn take_loaded(&mut self, number: u64, kept: FileDigest) -> Result<Loaded<H, R, D>, Error>
        requires log { IsLog H.sum_of R.sum_of self.old }
        ensures goes { TakeLoadedGoes H.sum_of R.sum_of self.old number kept result }
        ensures ready { IsLog H.sum_of R.sum_of self.new }
        ensures rest { IsSameButReading self.old self.new }
    {
        if let Some(loaded) = self.loaded.take() {
            if loaded.is_of(&kept) {
                return Ok(loaded);
            }
        }
        self.load(number, kept)
    }

    // Reads the closed segment of this number into memory. `Damaged` where its file hasn't the
    // length and the digest that are listed.
    pub(crate) fn load(&mut self, number: u64, kept: FileDigest) -> Result<Loaded<H, R, D>, Error>
        ensures goes { TakeLoadedGoes H.sum_of R.sum_of self.old number kept result }
        ensures same { self.new ≡ self.old }
    {
        match self.folder.read(Asked::Segment(number)) {
            Ok(blob) => match Loaded::new(self.alloc, self.options, kept, blob) {
                Ok(Some(loaded)) => Ok(loaded),
                Ok(None) => Err(Error::Damaged(number)),
                Err(error) => Err(Error::Layer(error)),
            },
            Err(error) => Err(Error::System(error)),
        }
    }

    // The frame at a place of a closed segment that is known by its whole file.
    #[tactic(auto, using(crate::proofs::Loading::reads_whole, crate::proofs::PagedReading::begins_whole))]
    fn read_whole(&mut self, place: Place, kept: FileDigest) -> Result<Option<Found>, Error>
        requires log { IsLog H.sum_of R.sum_of self.old }
        requires listed { IsKeptAs self.old.listing place.segment (λ f. f ≡ Whole kept) }
        ensures goes { LogReadGoes H.sum_of R.sum_of D.digest_of self.old self.new place result }
        ensures begins { LogReadBegins D.digest_of self.new place result }
        ensures ready { IsLog H.sum_of R.sum_of self.new }
        ensures rest { IsSameButReading self.old self.new }
    {
        match self.take_loaded(place.segment, kept) {
            Ok(loaded) => {
                let mut loaded = loaded;
                let found = loaded.read(place.offset);
                self.loaded = Some(loaded);
                found
            }
            Err(error) => Err(error),
        }
    }

    // The frame at a place of a closed segment.
    #[tactic(auto, using(crate::proofs::PagedReading::kept_as))]
    fn read_closed(&mut self, place: Place) -> Result<Option<Found>, Error>
        requires log { IsLog H.sum_of R.sum_of self.old }
        requires closed { place.segment ≢ open_in self.old.listing }
        ensures goes { LogReadGoes H.sum_of R.sum_of D.digest_of self.old self.new place result }
        ensures begins { LogReadBegins D.digest_of self.new place result }
        ensures ready { IsLog H.sum_of R.sum_of self.new }
        ensures rest { IsSameButReading self.old self.new }
    {
        let Some(closed) = self.listing.closed(place.segment) else {
            return Err(Error::NoSegment(place.segment));
        };
        match closed.fingerprint {
            Fingerprint::Whole(kept) => self.read_whole(place, kept),
            Fingerprint::Paged(kept) => self.read_paged(place, kept),
        }
    }

    // The frame at an offset of the open segment.
    pub(crate) fn read_current(&mut self, offset: u64) -> Result<Option<Found>, Error>
        requires log { IsLog H.sum_of R.sum_of self.old }
        ensures goes { OwnedReadGoes R.sum_of offset self.old.current self.new.current result }
        ensures ready { IsLog H.sum_of R.sum_of self.new }
        ensures rest { IsSameButCurrent self.old self.new }
        ensures leaves { OwnedReadLeaves H.sum_of R.sum_of self.old.current self.new.current }
    {
        self.current.read(offset)
    }

    /// The frame at a place: one that an append answered, or the place after another frame. `None`
    /// where none begins there: at the end of its segment and after it. `NoFrame` where the segment
    /// is closed and has marks, and the place is in the midst of a frame. A read at the place where
    /// the frame ended that was read last of its segment asks for no mark, so a scan pays nothing.
    /// If the marks can't be used the frame is read without them.
    ///
    /// Of a closed segment the pages are read that the frame touches, and the pages of its list
    /// with their digests; each is compared with its digest. If the list can't be used it is
    /// computed again from the segment's file, in memory. `Damaged` where what was read isn't what
    /// the segment held when it was closed: the other pages and the other segments can be read. A
    /// segment that a version before 0.11 closed is read whole, is compared with the length and the
    /// digest that were kept of it, and stays in memory until another such one is read.
    ///
    /// `NoSegment` where the segment was dropped, or was never there. `System` where the system
    /// refuses a file. `Manifest` where the manifest lists the segment with 1 PiB or more, which no
    /// segment has. `Closed` where the segment is the open one and a call before failed. `Layer`
    /// where the device or memory failed. An error leaves the log as it was.
    #[tactic(auto, using(crate::proofs::Readings::reads_current, crate::proofs::Joining::leaves_current, crate::proofs::PagedReading::begins_open))]
    pub fn read(&mut self, place: Place) -> Result<Option<Found>, Error>
        requires log { IsLog H.sum_of R.sum_of self.old }
        ensures goes { LogReadGoes H.sum_of R.sum_of D.digest_of self.old self.new place result }
        ensures begins { LogReadBegins D.digest_of self.new place result }
        ensures ready { IsLog H.sum_of R.sum_of self.new }
        ensures leaves { LeavesReading H.sum_of R.sum_of self.old self.new }
    {
        if place.segment == self.listing.open() {
            return self.read_current(place.offset);
        }
        self.read_closed(place)
    }
}
