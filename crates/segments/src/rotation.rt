// Closing the open segment, and opening the next one.
ghost use Rattle.std.specs.Prelude.{◌≡◌, None, IfOk};
ghost use Rattle.paged.specs.Recovery.{IsDurable};
ghost use Rattle.segments.specs.Log.{CloseCurrentGoes, CurrentKeeps, HasFollowed, IsLog};
ghost use Rattle.segments.specs.Log.{IsSameButAsked, IsSameButCurrent, OpenNextGoes, RotateGoes};
ghost use Rattle.segments.specs.Log.{WriteListGoes};
ghost use Rattle.segments.specs.Kept.{AreOfDigest, IsOfDigest};
ghost use Rattle.segments.specs.Crash.{RotationSurvives};
ghost use Rattle.segments.specs.Owned.{IsOwned, records_now};

use crate::closed::{Closed, Fingerprint, PagedSeal};
use crate::entry::Entry;
use crate::error::Error;
use crate::folder::Folder;
use crate::log::SegmentedLog;
use crate::opening::{open_segment, recover};
use crate::owned::OwnedJournal;
use crate::segment_digesting::SegmentLevels;
use digest::Digest;
use disk::Blob;
use page::Sum;
use page_digests::Seal;
use std::mem;

impl<F: Folder<B> + Drop, B: Blob + Drop, H: Sum, R: Sum, D: Digest> SegmentedLog<F, B, H, R, D> {
    /// Closes the open segment, whatever its size, and opens the next one.
    ///
    /// All records are committed first. Then the digests and the marks of the content's pages are
    /// computed, and the digests of the pages that these have; all are written into a file, and
    /// that is synced. The next segment's file is made, its name is made durable, and the folder
    /// takes the blob of the closed segment back. Last, the manifest lists the closed segment with
    /// the roots of its content and of its marks. So a crash while the manifest is written leaves
    /// the log before that or after it, and both have the same records. Behind that entry there is
    /// room for the entry of a drop.
    ///
    /// `Closed` where a call before failed, `Layer` where the device or memory failed, `System`
    /// where the folder refused the list's file or the next one, `Unsynced` where a sync of the
    /// next file or of its name failed, `Unlisted` where the next file has bytes, which stay, and
    /// `NumbersExhausted` where no number is left. After an error the log is closed.
    pub fn rotate(&mut self) -> Result<(), Error>
        requires log { IsLog H.sum_of R.sum_of self.old }
        ensures goes { RotateGoes H.sum_of R.sum_of D.digest_of self.old self.new result }
        ensures ready { IsLog H.sum_of R.sum_of self.new }
        ensures turns { RotationSurvives H.sum_of R.sum_of D.digest_of self.old self.new }
        ensures digest { let n = D.NUMBER in AreOfDigest n self.old.listing.closed
            → AreOfDigest n self.new.listing.closed }
    {
        let (closed, levels) = self.close_current()?;
        self.write_list(&levels)?;
        let next = self.open_next()?;
        self.follow_with(next);
        match self.enter(&Entry::Closes(closed)) {
            Ok(()) => Ok(()),
            Err(error) => {
                self.current.forget();
                Err(error)
            }
        }
    }

    // Has the folder write the list of the open segment.
    fn write_list(&mut self, levels: &SegmentLevels) -> Result<(), Error>
        requires log { IsLog H.sum_of R.sum_of self.old }
        ensures goes { WriteListGoes levels.now self.old self.new result }
        ensures ready { IsLog H.sum_of R.sum_of self.new }
        ensures rest { IsSameButAsked self.old self.new }
    {
        let number = self.listing.open();
        match self.folder.write_list(number, levels) {
            Ok(()) => Ok(()),
            Err(error) => Err(Error::System(error)),
        }
    }

    // Puts the next segment in the place of the open one, whose blob goes back to the folder.
    fn follow_with(&mut self, next: OwnedJournal<B, H, R, D>)
        requires log { IsLog H.sum_of R.sum_of self.old }
        requires owned { IsOwned H.sum_of R.sum_of next }
        requires pages { next.page_size ≡ self.old.page_size }
        requires rests { IsDurable self.old.current.life.present }
        ensures goes { HasFollowed next self.old self.new }
        ensures ready { IsLog H.sum_of R.sum_of self.new }
    {
        let number = self.listing.open();
        let last = mem::replace(&mut self.current, next);
        self.folder
            .close(number, last.into_blob(), self.manifest.blob());
    }

    // Opens the next segment. `Unlisted` where its file has bytes, which stay as they were.
    fn open_next(&mut self) -> Result<OwnedJournal<B, H, R, D>, Error>
        requires log { IsLog H.sum_of R.sum_of self.old }
        ensures goes { OpenNextGoes H.sum_of R.sum_of self.old self.new result }
        ensures ready { IsLog H.sum_of R.sum_of self.new }
        ensures rest { IsSameButAsked self.old self.new }
    {
        let number = self.listing.open();
        if number == u64::MAX {
            return Err(Error::NumbersExhausted);
        }
        let blob = open_segment::<F, B>(&mut self.folder, number + 1)?;
        if blob.len() > 0 {
            return Err(Error::Unlisted(number + 1));
        }
        match recover::<F, B, H, R, D>(self.alloc, self.options, blob) {
            Ok((next, _)) => Ok(next),
            Err(error) => Err(Error::Layer(error)),
        }
    }

    // Commits all of the open segment, closes it, and answers what is to be kept of it, and the
    // levels of its content.
    fn close_current(&mut self) -> Result<(Closed, SegmentLevels), Error>
        requires log { IsLog H.sum_of R.sum_of self.old }
        ensures goes { CloseCurrentGoes H.sum_of R.sum_of D.digest_of self.old self.new result }
        ensures ready { IsLog H.sum_of R.sum_of self.new }
        ensures rest { IsSameButCurrent self.old self.new }
        ensures keeps { let all = records_now R.sum_of self.old.current in
            CurrentKeeps H.sum_of R.sum_of all self.old self.new }
        ensures none { self.new.current.journal ≡ None }
        ensures digest { IfOk result (λ r. IsOfDigest D.NUMBER r.0.fingerprint) }
    {
        let records = self.current.records();
        let len = self.current.size();
        let levels = self.current.seal(self.alloc)?;
        let root = levels.content.root;
        let marks = levels.marks.root;
        let closed = Closed {
            records,
            fingerprint: Fingerprint::Paged(PagedSeal {
                number: D::NUMBER,
                seal: Seal { len, root },
                marks: Some(marks),
            }),
        };
        Ok((closed, levels))
    }
}
