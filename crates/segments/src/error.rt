// Why a call of a log is refused.
ghost use Rattle.std.specs.Prelude.{◌≡◌};
ghost use Rattle.disk.specs.declared.error.Error.TheVariants as layer;
ghost use Rattle.segments.specs.Folders.{opening_error};
ghost use Rattle.segments.specs.declared.error.Error.TheVariants.{Layer, System};

use file::OpenError;
use std::alloc::{AllocError, AllocFailed};
use std::io;

/// Why a call of a log is refused.
#[derive(Debug, Drop, thiserror::Error)]
pub enum Error {
    /// A call before failed, so the log is closed. Drop it, and open it again.
    #[error("the log is closed, since a call before failed: drop it, and open it again")]
    Closed,
    /// The layer below refused the call: the device, the memory or the blob's size.
    #[error("{0}")]
    Layer(disk::Error),
    /// The folder refused the call, or a file in it; the system says why. It wasn't a sync, unless
    /// it was the one of the list that is written as a segment is closed: no record is in it.
    #[error("{0}")]
    System(io::Error),
    /// A sync of the folder failed, or one of a file as it was opened. Nobody knows what of that is
    /// durable, and a later sync may succeed without it: put copies in the place of the files
    /// before they are opened again.
    #[error("a sync failed: {0}")]
    Unsynced(io::Error),
    /// The file of this closed segment doesn't hold what it held when it was closed, where it was
    /// read. Bring it back from a copy; the other segments can be read, and the other pages of this
    /// one.
    #[error("segment {0} doesn't hold what it held when it was closed: bring it back from a copy")]
    Damaged(u64),
    /// The file of this segment is there and has bytes, and the manifest knows nothing of it.
    /// Nothing was changed: bring the manifest back from a copy, or move the file away.
    #[error("the manifest doesn't know segment {0}, which has bytes: bring the manifest back")]
    Unlisted(u64),
    /// The file of the open segment is missing. Nothing was changed: bring it back from a copy.
    #[error("segment {0} is missing, though the manifest says that it is the open one")]
    Missing(u64),
    /// The file of the open segment has fewer logical bytes than it had as the log was opened last,
    /// as a copy does that wasn't finished. Nothing was changed: bring the file back from another
    /// copy.
    #[error("segment {0} has fewer bytes than it had when the log was opened last: bring it back")]
    Short(u64),
    /// The manifest is older than its copy, by which this segment was the open one. Nothing was
    /// changed: bring the manifest back, or build it anew.
    #[error("the manifest is older than its copy, which has segment {0} as the open one")]
    Outdated(u64),
    /// A record of the manifest is none that this crate writes, or its pages have another size; or,
    /// of a read, the manifest lists a segment of 1 PiB or more.
    #[error("the manifest can't be read: is the page size right?")]
    Manifest,
    /// The manifest lists a segment that was closed with the digest of this number, and the log was
    /// to be opened with another one. Nothing was changed: open it with that digest.
    #[error("a segment was closed with digest {0}: open the log with that digest")]
    AnotherDigest(u8),
    /// The segment was dropped, or there is none with this number yet.
    #[error("there is no segment {0}")]
    NoSegment(u64),
    /// No frame begins at this byte of this closed segment: the place isn't one that an append or
    /// another read answered. Nothing was read for it, except to find that out.
    #[error("no frame begins at byte {1} of segment {0}: give a place that an append or a read answered")]
    NoFrame(u64, u64),
    /// No marks were kept of this closed segment, by which its frames are found without a read of
    /// all before them: a version before 0.13 closed it. Read it from its begin on.
    #[error("segment {0} has no marks, since a version before 0.13 closed it")]
    Unmarked(u64),
    /// No segment number is left.
    #[error("no segment number is left")]
    NumbersExhausted,
}

impl From<disk::Error> for Error {
    ghost from_gives = { λ x e. e ≡ Layer x };

    fn from(error: disk::Error) -> Self {
        Error::Layer(error)
    }
}

impl From<io::Error> for Error {
    ghost from_gives = { λ x e. e ≡ System x };

    fn from(error: io::Error) -> Self {
        Error::System(error)
    }
}

impl From<OpenError> for Error {
    ghost from_gives = { λ x e. e ≡ opening_error x };

    fn from(error: OpenError) -> Self {
        match error {
            OpenError::System(error) => Error::System(error),
            OpenError::Unsynced(error) => Error::Unsynced(error),
        }
    }
}

impl From<AllocError> for Error {
    ghost from_gives = { λ _ e. e ≡ Layer layer.OutOfMemory };

    fn from(_: AllocError) -> Self {
        Error::Layer(disk::Error::OutOfMemory)
    }
}

impl<T: Drop> From<AllocFailed<T>> for Error {
    ghost from_gives = { λ _ e. e ≡ Layer layer.OutOfMemory };

    fn from(_: AllocFailed<T>) -> Self {
        Error::Layer(disk::Error::OutOfMemory)
    }
}
