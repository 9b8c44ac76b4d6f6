// Dropping the oldest segments.
ghost use Rattle.std.specs.Prelude.{OnOk};
ghost use Rattle.segments.specs.Log.{AsksNoSync, AsksOfOlder, AsksWell, EndsRemoval, IsLog};
ghost use Rattle.segments.specs.Kept.{AreOfDigest};
ghost use Rattle.segments.specs.Log.{LogDropGoes, StartFromGoes};
ghost use Rattle.segments.specs.Log.{StartOrCloseGoes};
ghost use Rattle.segments.specs.Log.{Tries};
ghost use Rattle.segments.specs.Crash.{DropSurvives, RemovesUnlisted};
ghost use Rattle.segments.specs.declared.entry.Entry.TheVariants.{Starts};

use crate::entry::Entry;
use crate::error::Error;
use crate::folder::{Asked, Folder};
use crate::log::SegmentedLog;
use digest::Digest;
use disk::Blob;
use page::Sum;
use std::io;

impl<F: Folder<B> + Drop, B: Blob + Drop, H: Sum, R: Sum, D: Digest> SegmentedLog<F, B, H, R, D> {
    /// Drops the segments before this one, if there are such, and removes their files, the oldest
    /// first. The drop is durable in the manifest before that, so a crash may leave some of the
    /// files, and no call reads them any more. A later drop removes them too, even one that drops
    /// nothing. The log keeps none of these files open, so the system frees their bytes, except for
    /// those that a [`ClosedSegment`](crate::ClosedSegment) reads.
    ///
    /// `Closed` where a call before failed, and `NoSegment` where there is no such segment yet: the
    /// open one is never dropped. Nothing is done then. `Layer` where the device or memory failed
    /// as the manifest was written: no file is removed, and the log is closed. Whether the drop is
    /// in the manifest shows once the log is opened again. `System` where the folder refused a
    /// call: the drop is durable, and some of the files may be left. It may be tried again.
    /// `Unsynced` where the files are gone, and the folder couldn't be synced after that: a crash
    /// may bring some of them back, which no call reads.
    #[tactic(auto, using(crate::proofs::DropSurvival::drop_still, crate::proofs::DropSurvival::drop_tries))]
    pub fn drop_before(&mut self, segment: u64) -> Result<(), Error>
        requires log { IsLog H.sum_of R.sum_of self.old }
        ensures goes { LogDropGoes segment self.old self.new result }
        ensures ready { IsLog H.sum_of R.sum_of self.new }
        ensures drops { DropSurvives H.sum_of R.sum_of segment self.old self.new }
        ensures removes { RemovesUnlisted H.sum_of R.sum_of self.old self.new }
        ensures digest { let n = D.NUMBER in AreOfDigest n self.old.listing.closed
            → AreOfDigest n self.new.listing.closed }
    {
        if self.current.is_closed() || self.manifest.is_closed() {
            return Err(Error::Closed);
        }
        if self.listing.open() < segment {
            return Err(Error::NoSegment(segment));
        }
        if self.listing.first() < segment {
            self.start_or_close(segment)?;
        }
        let first = self.listing.first();
        self.recent.let_go_before(first);
        remove_before::<F, B>(&mut self.folder, first)
    }

    // Adds to the manifest that this segment is the first one. After an error the log is closed.
    fn start_or_close(&mut self, segment: u64) -> Result<(), Error>
        requires log { IsLog H.sum_of R.sum_of self.old }
        ensures goes { StartOrCloseGoes segment self.old self.new result }
        ensures ready { IsLog H.sum_of R.sum_of self.new }
        ensures tries { let entry = Starts segment self.old.page_size in
            Tries H.sum_of R.sum_of entry self.old self.new }
    {
        match self.start_from(segment) {
            Ok(()) => Ok(()),
            Err(error) => {
                self.current.forget();
                Err(error)
            }
        }
    }

    // Adds to the manifest that this segment is the first one.
    pub(crate) fn start_from(&mut self, segment: u64) -> Result<(), Error>
        requires log { IsLog H.sum_of R.sum_of self.old }
        ensures goes { StartFromGoes segment self.old self.new result }
        ensures ready { IsLog H.sum_of R.sum_of self.new }
        ensures tries { let entry = Starts segment self.old.page_size in
            Tries H.sum_of R.sum_of entry self.old self.new }
    {
        let entry = Entry::Starts(segment, self.options.page_size.get());
        match self.enter(&entry) {
            Ok(()) => Ok(()),
            Err(error) => Err(error),
        }
    }
}

// Removes the files of the segments before one that are there, the oldest first, and makes that
// durable.
#[tactic(auto, using(crate::proofs::Removals::asks_sync))]
fn remove_before<F: Folder<B>, B: Blob>(folder: &mut F, first: u64) -> Result<(), Error>
    ensures below { AsksOfOlder first (F.asked folder.old) (F.asked folder.new) }
    ensures ends { EndsRemoval (F.asked folder.old) (F.asked folder.new) result }
{
    match remove_files::<F, B>(folder, first) {
        Ok(()) => match folder.sync() {
            Ok(()) => Ok(()),
            Err(error) => Err(Error::Unsynced(error)),
        },
        Err(error) => Err(Error::System(error)),
    }
}

// Removes the files of the segments before one that are there, the oldest first.
#[tactic(auto, using(crate::proofs::Removals::asks_none, crate::proofs::Removals::asks_later, crate::proofs::Removals::asks_removal, crate::proofs::Removals::asks_done, crate::proofs::Removals::asks_no_sync, crate::proofs::Removals::asks_well, crate::proofs::Removals::well_more))]
fn remove_files<F: Folder<B>, B: Blob>(folder: &mut F, first: u64) -> io::Result<()>
    ensures below { AsksOfOlder first (F.asked folder.old) (F.asked folder.new) }
    ensures unsynced { AsksNoSync (F.asked folder.old) (F.asked folder.new) }
    ensures done { OnOk result (AsksWell (F.asked folder.old) (F.asked folder.new)) }
{
    let oldest = folder.first()?.unwrap_or(first);
    for number in oldest..first {
        // A crash may have left older files than some that are gone.
        if folder.has(Asked::Segment(number))? {
            folder.remove(number)?;
        }
    }
    Ok(())
}
