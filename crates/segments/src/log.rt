// The log.
ghost use Rattle.std.specs.Prelude.{◌≡◌, ◌+◌};
ghost use Rattle.std.specs.Int.NonZero.{non_zero_u16_get};
ghost use Rattle.segments.specs.Manifest.{closed_at, closed_count, fitting, open_in};
ghost use Rattle.segments.specs.Log.{EnterGoes, HasKept, IsLog, IsSameButManifest, Tries};
ghost use Rattle.segments.specs.Owned.{owned_size};

use crate::closed::Closed;
use crate::entry::{Entry, bytes_of};
use crate::error::Error;
use crate::folder::Folder;
use crate::known::Known;
use crate::listing::Listing;
use crate::loaded::Loaded;
use crate::owned::OwnedJournal;
use crate::recent::Recent;
use digest::Digest;
use disk::Blob;
use page::Sum;
use std::alloc::Global;
use std::io;
use std::marker::Model;
use std::num::{NonZeroU16, NonZeroUsize};

/// How a log is kept.
#[derive(Clone, Copy)]
pub struct Options {
    /// How many logical bytes a page has. A log is always opened with the same number.
    pub page_size: NonZeroU16,
    /// How many bytes are buffered before pages are written.
    pub capacity: usize,
    /// How many pages the cache of an open segment has, and that of a closed one that is read into
    /// memory.
    pub pages: NonZeroUsize,
    /// How many bytes an opening reads at once.
    pub buffer_size: NonZeroUsize,
    /// An append rotates where the frames of the open segment have so many logical bytes or more. 0
    /// counts as 1: no append closes a segment that has no record.
    pub segment_size: u64,
}

/// A log of records in segments, in a folder.
pub struct SegmentedLog<F: Folder<B>, B: Blob, H: Sum, R: Sum, D: Digest> {
    pub(crate) alloc: Global,
    pub(crate) options: Options,
    pub(crate) folder: F,
    pub(crate) manifest: OwnedJournal<B, H, R, D>,
    pub(crate) current: OwnedJournal<B, H, R, D>,
    pub(crate) listing: Listing,
    // The closed segment that was read into memory last.
    pub(crate) loaded: Option<Loaded<H, R, D>>,
    // The closed segments that were read by their pages last.
    pub(crate) recent: Recent<F::Source, D>,
    // How many logical bytes of the open segment were durable as the log was opened or rotated.
    pub(crate) known: u64,
    // Why the copy of the manifest couldn't be kept last.
    pub(crate) unkept: Option<io::Error>,
}

// By hand, so that an owner lets one go by one call: of a derived drop, a proof follows each field
// at each exit.
impl<F: Folder<B> + Drop, B: Blob + Drop, H: Sum, R: Sum, D: Digest> Drop
    for SegmentedLog<F, B, H, R, D> {
    fn drop(self) {
        let SegmentedLog {
            alloc: _,
            options: _,
            folder: _,
            manifest: _,
            current: _,
            listing: _,
            loaded: _,
            recent: _,
            known: _,
            unkept: _,
        } = self;
    }
}

impl<F: Folder<B>, B: Blob, H: Sum, R: Sum, D: Digest> Model for SegmentedLog<F, B, H, R, D> {
    ghost use Rattle.std.specs.Int.NonZero.{non_zero_u16_get};
    ghost use Rattle.segments.specs.Log.{LogState};

    ghost Value = { LogState };

    ghost view = { λ l. record {
      manifest = l.manifest;
      current = l.current;
      listing = l.listing;
      asked = F.asked l.folder;
      reading = record { whole = l.loaded; paged = l.recent };
      page_size = non_zero_u16_get l.options.page_size;
      most = l.options.segment_size;
      known = l.known;
    } };
}

impl<F: Folder<B> + Drop, B: Blob + Drop, H: Sum, R: Sum, D: Digest> SegmentedLog<F, B, H, R, D> {
    /// The number of the first segment that wasn't dropped.
    pub fn first_segment(&self) -> u64
        ensures { result ≡ self.now.listing.first }
    {
        self.listing.first()
    }

    /// The number of the open segment, the last one.
    pub fn last_segment(&self) -> u64
        ensures { result ≡ open_in self.now.listing }
    {
        self.listing.open()
    }

    /// The blob of the open segment. If it is a file's, its `failure` is why a call of it failed.
    pub fn blob(&self) -> &B
        ensures { B.life result.now ≡ self.now.current.life }
    {
        self.current.blob()
    }

    /// The blob of the manifest.
    pub fn manifest_blob(&self) -> &B
        ensures { B.life result.now ≡ self.now.manifest.life }
    {
        self.manifest.blob()
    }

    /// How many records the open segment has.
    pub fn records(&self) -> u64
        ensures { result ≡ self.now.current.records }
    {
        self.current.records()
    }

    /// How many logical bytes the frames of the open segment have: its records, and seven bytes for
    /// each. 0 where the log is closed.
    pub fn size(&self) -> u64
        ensures { result ≡ owned_size self.now.current.journal }
    {
        self.current.size()
    }

    /// How many logical bytes the frames of the manifest have. 0 where the log is closed, since the
    /// manifest couldn't be written.
    pub fn manifest_size(&self) -> u64
        ensures { result ≡ owned_size self.now.manifest.journal }
    {
        self.manifest.size()
    }

    /// How many records the log has, of those that weren't dropped. `None` where that passes the
    /// greatest `u64`: then the manifest is none that a log has written.
    pub fn len(&self) -> Option<u64>
        ensures { let all = closed_count self.now.listing.closed + self.now.current.records in
            result ≡ fitting all }
    {
        self.listing.records()?.checked_add(self.current.records())
    }

    /// What is kept of a closed segment; `None` where it was dropped, or isn't closed.
    pub fn closed(&self, segment: u64) -> Option<Closed>
        ensures { result ≡ closed_at self.now.listing segment }
    {
        self.listing.closed(segment)
    }

    /// Why the copy of the manifest couldn't be kept last, as the log was opened or as the last
    /// entry was added; `None` where it was kept. The log goes on without one: the manifest itself
    /// is durable. But until a copy is kept again, a manifest that is damaged can't be had back
    /// whole.
    pub fn copy_failure(&self) -> Option<&io::Error> {
        self.unkept.as_ref()
    }

    // Has the folder keep a copy of the manifest. The log goes on where that fails.
    #[tactic(auto, using(crate::proofs::Keeping::kept_ready))]
    pub(crate) fn keep(&mut self)
        ensures has { HasKept self.old self.new }
        ensures ready { IsLog H.sum_of R.sum_of self.old → IsLog H.sum_of R.sum_of self.new }
    {
        let known = Known {
            segment: self.listing.open(),
            len: self.known,
        };
        let kept = self.folder.keep(self.manifest.blob(), known);
        self.unkept = kept.err();
    }

    // Adds an entry to the manifest, takes it into the listing once it is durable, and then has a
    // copy of the manifest kept. `Manifest` where the entry can't follow those before it. After an
    // error the listing is as it was.
    pub(crate) fn enter(&mut self, entry: &Entry) -> Result<(), Error>
        requires log { IsLog H.sum_of R.sum_of self.old }
        ensures goes { EnterGoes R.sum_of entry.now self.old self.new result }
        ensures ready { IsLog H.sum_of R.sum_of self.new }
        ensures rest { IsSameButManifest self.old self.new }
        ensures tries { Tries H.sum_of R.sum_of entry.now self.old self.new }
    {
        let size = self.manifest.size();
        let bytes = bytes_of(self.alloc, self.options.page_size, size, entry)?;
        let Some(listing) = self.listing.with(self.options.page_size.get(), entry)? else {
            return Err(Error::Manifest);
        };
        match self.manifest.add(&bytes) {
            Ok(()) => {
                self.listing = listing;
                self.known = entry.known_with(self.known);
                self.keep();
                Ok(())
            }
            Err(error) => Err(error),
        }
    }
}
