// Appending records, and committing them.
ghost use Rattle.std.specs.Prelude.{◌≡◌, ◌≤◌, ◌++◌, ◌∷◌, [], length, IfOk};
ghost use Rattle.segments.specs.Log.{AppendHereGoes, CurrentKeeps, HasMore, IsLog};
ghost use Rattle.segments.specs.Log.{IsSameButCurrent};
ghost use Rattle.segments.specs.Kept.{AreOfDigest};
ghost use Rattle.segments.specs.Log.{LogAppendGoes};
ghost use Rattle.segments.specs.Crash.{AppendSurvives, CurrentSurvives};
ghost use Rattle.segments.specs.Owned.{OwnedCommitGoes, OwnedStartGoes, OwnedWaitGoes};
ghost use Rattle.segments.specs.Owned.{records_now};

use crate::error::Error;
use crate::folder::Folder;
use crate::log::SegmentedLog;
use crate::place::Place;
use digest::Digest;
use disk::{Blob, StartedSync};
use page::Sum;

impl<F: Folder<B> + Drop, B: Blob + Drop, H: Sum, R: Sum, D: Digest> SegmentedLog<F, B, H, R, D> {
    /// Appends a record, of at most [`MOST_BYTES`](journal::MOST_BYTES) bytes, and answers where it
    /// stands. The record is committed by the next [`commit`](SegmentedLog::commit). Where the open
    /// segment has [`segment_size`](crate::log::Options::segment_size) bytes or more, the log is
    /// rotated first.
    ///
    /// `Closed` where a call before failed, `Layer` where the device or memory failed, or the blob
    /// has no room. Where the log is rotated, also the errors of [`rotate`](SegmentedLog::rotate).
    /// After an error the log is closed.
    #[tactic(auto, using(crate::proofs::Records::log_adds))]
    pub fn append(&mut self, bytes: &[u8]) -> Result<Place, Error>
        requires log { IsLog H.sum_of R.sum_of self.old }
        requires short { length bytes.now ≤ 65535 }
        ensures goes { let d = D.digest_of in
            LogAppendGoes H.sum_of R.sum_of d bytes.now self.old self.new result }
        ensures ready { IsLog H.sum_of R.sum_of self.new }
        ensures adds { IfOk result (λ p.
            HasMore H.sum_of R.sum_of D.digest_of (bytes.now ∷ []) self.old self.new) }
        ensures survives { let d = D.digest_of in
            AppendSurvives H.sum_of R.sum_of d bytes.now self.old self.new result }
        ensures digest { let n = D.NUMBER in AreOfDigest n self.old.listing.closed
            → AreOfDigest n self.new.listing.closed }
    {
        if self.current.size() < self.options.segment_size {
            return self.append_here(bytes);
        }
        match self.rotate() {
            Ok(()) => self.append_here(bytes),
            Err(error) => Err(error),
        }
    }

    // Appends a record to the open segment.
    #[tactic(auto, using(crate::proofs::Surviving::survives))]
    fn append_here(&mut self, bytes: &[u8]) -> Result<Place, Error>
        requires log { IsLog H.sum_of R.sum_of self.old }
        requires short { length bytes.now ≤ 65535 }
        ensures goes { AppendHereGoes H.sum_of R.sum_of bytes.now self.old self.new result }
        ensures ready { IsLog H.sum_of R.sum_of self.new }
        ensures rest { IsSameButCurrent self.old self.new }
        ensures keeps { let all = records_now R.sum_of self.old.current ++ bytes.now ∷ [] in
            CurrentKeeps H.sum_of R.sum_of all self.old self.new }
        ensures lasts { CurrentSurvives H.sum_of R.sum_of (bytes.now ∷ []) self.old self.new }
    {
        let segment = self.listing.open();
        match self.current.append(bytes) {
            Ok(offset) => Ok(Place { segment, offset }),
            Err(error) => Err(error),
        }
    }

    /// Commits all records that were appended: they come back after any crash from then on.
    ///
    /// `Closed` where a call before failed, `Layer` where the device or memory failed. After an
    /// error the log is closed.
    #[tactic(auto, using(crate::proofs::Surviving::survives_same))]
    pub fn commit(&mut self) -> Result<(), Error>
        requires log { IsLog H.sum_of R.sum_of self.old }
        ensures goes { OwnedCommitGoes H.sum_of R.sum_of self.old.current self.new.current result }
        ensures ready { IsLog H.sum_of R.sum_of self.new }
        ensures rest { IsSameButCurrent self.old self.new }
        ensures keeps { let all = records_now R.sum_of self.old.current in
            CurrentKeeps H.sum_of R.sum_of all self.old self.new }
        ensures lasts { CurrentSurvives H.sum_of R.sum_of [] self.old self.new }
    {
        self.current.commit()
    }

    /// Starts a commit of all records that were appended, and doesn't wait for it: other records
    /// may be appended and read meanwhile. The records are committed once
    /// [`wait_for_commit`](SegmentedLog::wait_for_commit) or a rotation has answered `Ok`. The call
    /// may wait for a commit that was started before.
    ///
    /// The errors are those of [`commit`](SegmentedLog::commit).
    #[tactic(auto, using(crate::proofs::Surviving::survives_same))]
    pub fn start_commit(&mut self) -> Result<StartedSync, Error>
        requires log { IsLog H.sum_of R.sum_of self.old }
        ensures goes { OwnedStartGoes H.sum_of R.sum_of self.old.current self.new.current result }
        ensures ready { IsLog H.sum_of R.sum_of self.new }
        ensures rest { IsSameButCurrent self.old self.new }
        ensures keeps { let all = records_now R.sum_of self.old.current in
            CurrentKeeps H.sum_of R.sum_of all self.old self.new }
        ensures lasts { CurrentSurvives H.sum_of R.sum_of [] self.old self.new }
    {
        self.current.start_commit()
    }

    /// Waits for the commit that was started last: what was appended before that start is committed
    /// then. Where no commit was started the call does nothing.
    ///
    /// The errors are those of [`commit`](SegmentedLog::commit).
    #[tactic(auto, using(crate::proofs::Surviving::survives_same))]
    pub fn wait_for_commit(&mut self) -> Result<(), Error>
        requires log { IsLog H.sum_of R.sum_of self.old }
        ensures goes { OwnedWaitGoes H.sum_of R.sum_of self.old.current self.new.current result }
        ensures ready { IsLog H.sum_of R.sum_of self.new }
        ensures rest { IsSameButCurrent self.old self.new }
        ensures keeps { let all = records_now R.sum_of self.old.current in
            CurrentKeeps H.sum_of R.sum_of all self.old self.new }
        ensures lasts { CurrentSurvives H.sum_of R.sum_of [] self.old self.new }
    {
        self.current.wait_for_commit()
    }
}
