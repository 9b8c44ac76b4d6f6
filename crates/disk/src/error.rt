// The errors of every layer.
ghost use Rattle.std.specs.Prelude.{◌≡◌};
ghost use Rattle.disk.specs.declared.error.Error.TheVariants.{OutOfMemory};
ghost use Rattle.disk.specs.Error.{number_of, name_of};

use std::alloc::{AllocError, AllocFailed};

/// Why a call of the layer failed. `Display` writes the variant's name.
#[derive(Clone, Copy, Debug, PartialEq, Eq, thiserror::Error)]
pub enum Error {
    /// A device read failed in this call.
    #[error("ReadFailed")]
    ReadFailed,
    /// A device write failed in this call.
    #[error("WriteFailed")]
    WriteFailed,
    /// A device resize failed in this call.
    #[error("ResizeFailed")]
    ResizeFailed,
    /// A device sync failed in this call.
    #[error("SyncFailed")]
    SyncFailed,
    /// A page that was asked for has no value, as no checksum slot of it matches its bytes; or the
    /// value of a page that must be full is shorter.
    #[error("InvalidChecksum")]
    InvalidChecksum,
    /// A range or an offset passes the end.
    #[error("BlobInsufficientLength")]
    BlobInsufficientLength,
    /// An offset or a length passes the greatest number of its type.
    #[error("OffsetOverflow")]
    OffsetOverflow,
    /// A request for memory was refused.
    #[error("OutOfMemory")]
    OutOfMemory,
    /// A cache has given all its ids: the last was the greatest `u64`.
    #[error("IdsExhausted")]
    IdsExhausted,
}

impl Error {
    /// The error's number, from 1 to 9 in the order of the variants.
    pub fn number(&self) -> u8
        ensures { result ≡ number_of self.now }
    {
        match self {
            Error::ReadFailed => 1,
            Error::WriteFailed => 2,
            Error::ResizeFailed => 3,
            Error::SyncFailed => 4,
            Error::InvalidChecksum => 5,
            Error::BlobInsufficientLength => 6,
            Error::OffsetOverflow => 7,
            Error::OutOfMemory => 8,
            Error::IdsExhausted => 9,
        }
    }

    /// The variant's name.
    pub fn name(&self) -> &'static str
        ensures { result.now ≡ name_of self.now }
    {
        match self {
            Error::ReadFailed => "ReadFailed",
            Error::WriteFailed => "WriteFailed",
            Error::ResizeFailed => "ResizeFailed",
            Error::SyncFailed => "SyncFailed",
            Error::InvalidChecksum => "InvalidChecksum",
            Error::BlobInsufficientLength => "BlobInsufficientLength",
            Error::OffsetOverflow => "OffsetOverflow",
            Error::OutOfMemory => "OutOfMemory",
            Error::IdsExhausted => "IdsExhausted",
        }
    }
}

impl From<AllocError> for Error {
    ghost from_gives = { λ _ e. e ≡ OutOfMemory };

    fn from(_: AllocError) -> Self {
        Error::OutOfMemory
    }
}

impl<T: Drop> From<AllocFailed<T>> for Error {
    ghost from_gives = { λ _ e. e ≡ OutOfMemory };

    fn from(_: AllocFailed<T>) -> Self {
        Error::OutOfMemory
    }
}
