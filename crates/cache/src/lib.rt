//! The cache of pages that many blobs share.
#![tactic(auto)]

mod cache;
mod fill;
mod keep;
mod piece;
mod read;
mod slots;
mod walk;

pub use cache::CacheRef;
pub use piece::Piece;
