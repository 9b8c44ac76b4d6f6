//! A blob of pages with one writer: appends are buffered and reach the blob in whole pages, a sync
//! makes them durable, and a recovery takes over what a crash left.
//!
//! A page's value is the part of its payload that its checksum slot covers, if a slot of its footer
//! verifies. A page is full if its value is the whole payload. A blob's text is what a recovery
//! keeps: the values of its pages from the first on, joined while each is full, and the next page's
//! value. The tip is the bytes after a writer's full pages, in memory. An image is a possible state
//! of the blob after a crash. A writer is sound while its invariant holds between it and its blob.
#![tactic(auto)]

mod append;
mod build;
mod direct;
mod flush;
mod outlook;
mod raw;
mod read;
mod recommended;
mod recovery;
mod replay;
mod scan;
mod snapshot;
mod start;
mod truncate;
mod verdict;
mod within;
mod writer;

pub use outlook::{Outlook, look, survey};
pub use paged_read::{Hand, Replay, Sealed, TooFew, View, physical_page_size};
pub use recommended::{
    RECOMMENDED_CAPACITY, RECOMMENDED_LIMIT, recommended_buffer_size, recommended_cache,
    recommended_page_size,
};
pub use recovery::{recover, recover_keeping};
pub use start::wait_sync;
pub use verdict::{Survey, Verdict};
pub use within::{Refusal, recover_within};
pub use writer::{Append, Recovering, Recovery, Writer};
