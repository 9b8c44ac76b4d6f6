//! Contents that are known by the digests of their pages, and are read page by page from files of
//! which nothing is believed.
#![tactic(auto)]

mod ahead;
mod catching;
mod digesting;
mod error;
mod file_source;
mod held_pages;
mod levels;
mod list;
mod paged_bytes;
mod paged_content;
mod pages;
mod past;
mod reading;
mod rebuilding;
mod seal;
mod source;
mod unopened;
mod vec_source;

pub use catching::catch_up;
pub use digesting::Digesting;
pub use error::Error;
pub use file_source::FileSource;
pub use levels::{Levels, levels_of, levels_of_list};
pub use paged_bytes::{PagedBytes, UnopenedBytes};
pub use paged_content::PagedContent;
pub use pages::LEN_LIMIT;
pub use past::SourcePast;
pub use rebuilding::rebuild_levels;
pub use seal::Seal;
pub use source::Source;
pub use unopened::Unopened;
pub use vec_source::VecSource;
