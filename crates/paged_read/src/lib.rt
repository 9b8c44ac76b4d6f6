//! Reads of a blob of pages, of one range or of many, through a cache of pages, and searches for
//! the pages that have a value.
//!
//! A page's value is the part of its payload that its checksum slot covers, if a slot of its footer
//! verifies. A page is full if its value is the whole payload. The tip is the bytes after a blob's
//! full pages, in memory.
#![tactic(auto)]

mod ahead;
mod batch;
mod below;
mod fetch;
mod full;
mod hand;
mod lack;
mod pieces;
mod prefix;
mod ranges;
mod raw;
mod replay;
mod sealed;
mod search;
mod view;

pub use hand::{Hand, TooFew};
pub use replay::Replay;
pub use sealed::Sealed;
pub use search::physical_page_size;
pub use view::View;

/// For the crate `paged` alone, whose calls offer these to callers: searches through a blob that
/// nobody opened, and reads of it. `conformance` plays them too.
pub mod for_paged {
    pub use crate::prefix::{Partial, Prefix};
    pub use crate::raw::{read_range, read_tail};
    pub use crate::search::{last_pages, pages_of, scan, scan_from};
}
