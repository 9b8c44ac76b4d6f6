//! The storage device of the paged blob layer: its errors, the buffers that pass through it, the
//! trait [`Blob`] with what each call does and what a crash may leave, and three blobs:
//! [`VecBlob`], bytes in memory; [`MemBlob`], which a caller can make fail and crash; and
//! [`Counted`], which counts what another blob is asked for.
#![tactic(auto)]

mod action;
mod blob;
mod buf;
mod counted;
mod error;
mod memory;
mod past;
mod ranges;
mod started_read;
mod started_sync;
mod vec_blob;

pub use action::Call;
pub use blob::{Blob, ReadOptions, WriteOptions};
pub use buf::{IoBuf, IoBufs};
pub use counted::Counted;
pub use error::Error;
pub use memory::MemBlob;
pub use past::Past;
pub use started_read::StartedRead;
pub use started_sync::StartedSync;
pub use vec_blob::VecBlob;
