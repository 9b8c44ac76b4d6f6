//! An example of what is built on paged blobs: a journal of records, each with a checksum of its
//! own, over any blob.
#![tactic(auto)]

mod crashes;
mod frame;
mod journal;
mod lookup;
mod reader;
mod walk;

pub use crashes::crash_and_recover;
pub use frame::{AFTER, Found, IN_FRONT, MOST_BYTES, frame_of, record_at, record_len_of};
pub use journal::Journal;
pub use reader::Reader;
