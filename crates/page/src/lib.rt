//! Pages of the paged blob layer: the footer with its two checksum slots, where pages stand in a
//! blob, and the checksum functions.
//!
//! A physical page is `P` payload bytes and a footer of [`CHECKSUM_SIZE`] bytes, where `P` is from
//! 1 to 65535.
#![tactic(auto)]

mod buffer;
mod checksum;
mod encode;
mod geometry;
mod pages;
mod slot;
mod sum;
mod tail;

pub use buffer::Buffer;
pub use checksum::Checksum;
pub use encode::{EncodeSize, FixedSize, Write};
pub use geometry::{
    CHECKSUM_SIZE, adjusted_capacity, page_size, physical_page, too_big_for_buffer,
    validate_read_ranges,
};
pub use pages::split_pages;
pub use slot::{ActiveChecksum, Slot};
pub use sum::{AddSum, ConstSum, Sum};
