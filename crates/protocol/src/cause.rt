// Why a device failed.
ghost use Rattle.std.specs.Prelude.{◌≡◌, Bool, false};
ghost use Rattle.file.specs.Asked.{ends_in_failed_sync};

use disk::{MemBlob, VecBlob};
use file::{Host, Mirror};
use std::io;

/// A blob that can report why a device call failed.
pub trait Cause {
    /// Whether the call that failed beneath the blob was a sync, whatever error the blob answered.
    ghost sync_failed: { Self → Bool };

    /// The error of the operating system, if there is one.
    fn cause(&self) -> Option<&io::Error>;

    /// Whether the call that failed beneath the blob was a sync. The blob may have answered it as a
    /// failed write, one that was to be durable. Then the file has to be replaced, and not only
    /// opened anew.
    fn failed_sync(&self) -> bool
        ensures { result ≡ sync_failed self.now };
}

impl<S: Host> Cause for Mirror<S> {
    ghost sync_failed = { λ m. ends_in_failed_sync m.asked };

    fn cause(&self) -> Option<&io::Error> {
        self.failure()
    }

    fn failed_sync(&self) -> bool {
        Mirror::failed_sync(self)
    }
}

// A blob in memory has nothing beneath it.
impl Cause for VecBlob {
    ghost sync_failed = { λ _. false };

    fn cause(&self) -> Option<&io::Error> {
        None
    }

    fn failed_sync(&self) -> bool {
        false
    }
}

// The simulator's syncs that fail are answered as such.
impl Cause for MemBlob {
    ghost sync_failed = { λ _. false };

    fn cause(&self) -> Option<&io::Error> {
        None
    }

    fn failed_sync(&self) -> bool {
        false
    }
}
