// Why a content isn't read.
ghost use Rattle.std.specs.Prelude.{◌≡◌};
ghost use Rattle.page_digests.specs.declared.error.Error.TheVariants.{OutOfMemory, System};

use std::alloc::AllocError;
use std::io;

/// Why a content, or a part of it, isn't read.
#[derive(Debug, Drop, thiserror::Error)]
pub enum Error {
    /// What was read doesn't have its digest: the top, a page of the list, or a page of the
    /// content. If it is the top or a page of the list, [`rebuild_levels`](crate::rebuild_levels)
    /// helps.
    #[error("what was read isn't as it was when the content was closed: its digest is another one")]
    Damaged,
    /// The system refused a read, or the file ends before the bytes that were to be read.
    #[error("{0}")]
    System(io::Error),
    /// Memory was refused.
    #[error("memory was refused")]
    OutOfMemory,
}

impl From<AllocError> for Error {
    ghost from_gives = { λ _ e. e ≡ OutOfMemory };

    fn from(_: AllocError) -> Self {
        Error::OutOfMemory
    }
}

impl From<io::Error> for Error {
    ghost from_gives = { λ x e. e ≡ System x };

    fn from(error: io::Error) -> Self {
        Error::System(error)
    }
}
