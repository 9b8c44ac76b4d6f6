// Digests of the open segment ahead of its rotation.
ghost use Rattle.std.specs.Prelude.{◌≡◌};
ghost use Rattle.paged.specs.Calls.{AsksAtMost};
ghost use Rattle.segments.specs.Ahead.{AheadGoes};
ghost use Rattle.segments.specs.Log.{IsLog, IsSameButCurrent};
ghost use Rattle.segments.specs.Owned.{OwnedReadLeaves};

use crate::error::Error;
use crate::folder::Folder;
use crate::log::SegmentedLog;
use digest::Digest;
use disk::Blob;
use page::Sum;

impl<F: Folder<B> + Drop, B: Blob + Drop, H: Sum, R: Sum, D: Digest> SegmentedLog<F, B, H, R, D> {
    /// Digests and marks the next whole pages of the open segment, at most `most` of them, so that
    /// its rotation has fewer to digest.
    ///
    /// It is for whoever wants short rotations: a rotation digests all pages that aren't digested
    /// yet, and the log answers nobody meanwhile. Call it after appends, with a few pages more than
    /// these filled: so it catches up after an opening too, which begins with no page digested.
    /// Without such calls all is right, and a rotation takes longer. A page that is buffered or
    /// cached costs no device call, and each other page costs one read.
    ///
    /// `Closed` where a call before failed. `Layer` where a read of the device failed, or memory
    /// was refused. An error leaves the log open and as it was, and the pages before it digested:
    /// the rotation reads the others.
    pub fn digest_ahead(&mut self, most: u64) -> Result<(), Error>
        requires log { IsLog H.sum_of R.sum_of self.old }
        ensures goes { AheadGoes most self.old.current self.new.current result }
        ensures ready { IsLog H.sum_of R.sum_of self.new }
        ensures rest { IsSameButCurrent self.old self.new }
        ensures leaves { OwnedReadLeaves H.sum_of R.sum_of self.old.current self.new.current }
        ensures costs { AsksAtMost most self.old.current.life self.new.current.life }
    {
        self.current.digest_ahead(self.alloc, most)
    }
}
