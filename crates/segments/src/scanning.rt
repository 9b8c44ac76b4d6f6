// Going over the records.
ghost use Rattle.std.specs.Prelude.{None, Ok, IfOk};
ghost use Rattle.segments.specs.Log.{IsLog, LeavesReading};
ghost use Rattle.segments.specs.Scan.{ComesFirst, MovesPlace, NextGoes, StepGoes, place_at};
ghost use Rattle.segments.specs.Log.{LogReadGoes};

use crate::error::Error;
use crate::folder::Folder;
use crate::log::SegmentedLog;
use crate::place::Place;
use digest::Digest;
use disk::{Blob, IoBuf};
use page::Sum;

// What stands at a place.
#[derive(Drop)]
enum Step {
    // A record, and the place behind it.
    Record(IoBuf, Place),
    // No record, and the place from which to go on.
    Passed(Place),
    // The end of the log.
    End,
}

impl<F: Folder<B> + Drop, B: Blob + Drop, H: Sum, R: Sum, D: Digest> SegmentedLog<F, B, H, R, D> {
    /// The place of the first record, from which [`next`](SegmentedLog::next) goes over all.
    #[tactic(auto, using(crate::proofs::Stepping::comes_first))]
    pub fn start(&self) -> Place
        ensures { ComesFirst R.sum_of self.now result }
    {
        Place {
            segment: self.listing.first(),
            offset: 0,
        }
    }

    /// The next record from a place on, and where it stands; `None` after the last. The place moves
    /// behind the record. At the end of a closed segment the next one follows; a frame that is no
    /// record is passed over. At the end of the log the place is where the next append puts its
    /// record, unless that append rotates; so a later call reads on from there.
    ///
    /// A place is one that an append or this call answered, or [`start`](SegmentedLog::start). The
    /// errors are those of [`read`](SegmentedLog::read); each leaves the place where it was, so
    /// that the call can be made again.
    pub fn next(&mut self, place: &mut Place) -> Result<Option<(Place, IoBuf)>, Error>
        requires log { IsLog H.sum_of R.sum_of self.old }
        ensures goes { let d = D.digest_of in
            NextGoes H.sum_of R.sum_of d self.old self.new place.old place.new result }
        ensures moves { IfOk result (λ found. MovesPlace self.old place.old place.new found) }
        ensures ready { IsLog H.sum_of R.sum_of self.new }
        ensures leaves { LeavesReading H.sum_of R.sum_of self.old self.new }
    {
        let mut at = *place;
        loop {
            match self.step(at.segment, at.offset)? {
                Step::Record(bytes, behind) => {
                    *place = behind;
                    return Ok(Some((at, bytes)));
                }
                Step::Passed(to) => at = to,
                Step::End => {
                    *place = at;
                    return Ok(None);
                }
            }
        }
    }

    // Goes one frame further from a place.
    fn step(&mut self, segment: u64, offset: u64) -> Result<Step, Error>
        requires log { IsLog H.sum_of R.sum_of self.old }
        ensures goes { let at = place_at segment offset in
            StepGoes H.sum_of R.sum_of D.digest_of self.old self.new at result }
        ensures ready { IsLog H.sum_of R.sum_of self.new }
        ensures leaves { LeavesReading H.sum_of R.sum_of self.old self.new }
    {
        let Some(found) = self.read(Place { segment, offset })? else {
            return Ok(self.step_after(segment, offset));
        };
        let behind = Place {
            segment,
            offset: found.end,
        };
        match found.bytes {
            Some(bytes) => Ok(Step::Record(bytes, behind)),
            None => Ok(Step::Passed(behind)),
        }
    }

    // Goes on after the last frame of a segment: a closed one is followed by the next segment, and
    // the open one by the end.
    fn step_after(&self, segment: u64, offset: u64) -> Step
        requires none { let at = place_at segment offset in
            LogReadGoes H.sum_of R.sum_of D.digest_of self.now self.now at (Ok None) }
        ensures { let at = place_at segment offset in
            StepGoes H.sum_of R.sum_of D.digest_of self.now self.now at (Ok result) }
    {
        if segment == self.listing.open() {
            return Step::End;
        }
        Step::Passed(Place {
            segment: segment + 1,
            offset: 0,
        })
    }
}
