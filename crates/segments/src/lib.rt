//! Logs in segments, which are numbered files. The last one is open, in memory, with all that is
//! promised of a journal. For each closed segment, a manifest keeps the length of its content and a
//! root, by which the digests of its pages are known. So, unless a second string is at hand that has
//! the digest of one that was written, a read of a closed segment gives what it held when it was
//! closed, or is refused.
#![tactic(auto)]

mod appending;
mod call;
mod closed;
mod closed_reading;
mod closed_segment;
mod digesting_ahead;
mod dropping;
mod entry;
mod error;
mod file_folder;
mod folder;
mod folder_copy;
mod known;
mod listing;
mod loaded;
mod log;
mod mark;
mod marked;
mod marking;
mod names;
mod nth;
mod opening;
mod owned;
mod paged_frames;
mod paged_reading;
mod paged_segment;
mod passing;
mod passing_damage;
mod past;
mod place;
mod reading;
mod recent;
mod rotation;
mod scanning;
mod scanning_many;
mod seeking;
mod segment_digesting;
mod segment_file;

pub use call::FolderCall;
pub use closed::{Closed, FileDigest, Fingerprint, PagedSeal};
pub use closed_segment::ClosedSegment;
pub use entry::{Entry, bytes_of, entry_of};
pub use error::Error;
pub use file_folder::FileFolder;
pub use folder::{Asked, Folder};
pub use folder_copy::FolderCopy;
pub use known::{COPY_HEAD, Known, copy_of};
pub use listing::Listing;
pub use log::{Options, SegmentedLog};
pub use mark::{Mark, mark_of};
pub use marking::Marking;
pub use passing_damage::Passed;
pub use past::FolderPast;
pub use place::Place;
pub use recent::OPENED;
pub use segment_digesting::SegmentLevels;
