//! Blobs over a file: all bytes are mirrored in memory, and each write, resize and sync is passed
//! on to the file.
//!
//! [`Mirror`] is proved: for every [`Host`] it keeps each law of [`disk::Blob`], and asks the host
//! for exactly the writes, resizes and syncs that the blob's life needs, up to the first call of
//! the host that failed. No clause can say what the file itself holds: [`FileHost`] is short, and
//! is to be read.
#![tactic(auto)]

mod host;
mod keeping;
mod mirror;
mod opening;
mod replacing;
mod runs;

pub use host::{FileHost, Host};
pub use keeping::keep;
pub use mirror::Mirror;
pub use opening::{OpenError, open, read};
pub use replacing::{replace, rewrite, set_aside};
pub use runs::{RUN_SIZE, Sink, put_runs};

/// A blob over a file of the system.
pub type FileBlob = Mirror<FileHost>;
