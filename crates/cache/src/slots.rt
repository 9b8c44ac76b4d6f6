// The table of a cache's pages.

use std::num::NonZeroU16;

/// A blob's id and a page's number.
pub(crate) type Key = (u64, u64);

/// No slot.
pub(crate) const NONE: usize = usize::MAX;

/// The pages by their keys. A new page gets a free slot, and no slot is ever given back: where none
/// is free, the page in the slot under the hand goes for the new one.
#[derive(Drop)]
pub(crate) struct Slots {
    pub(crate) page_size: NonZeroU16,
    /// The pages of the used slots, one after the other.
    pub(crate) bytes: Vec<u8>,
    /// By a slot: the key of its page.
    pub(crate) keys: Vec<Key>,
    /// By the place of a key: a slot that may hold it.
    pub(crate) hints: Vec<usize>,
    /// By the place of a key: the first slot of the chain that holds it, if one does.
    pub(crate) firsts: Vec<usize>,
    /// By a slot: the next one of its chain.
    pub(crate) nexts: Vec<usize>,
    /// How many slots are used: these are the first ones.
    pub(crate) used: usize,
    /// The slot whose page goes next.
    pub(crate) hand: usize,
}

/// A slot of a chain, and the one before it, unless it is the first.
#[derive(Clone, Copy)]
pub(crate) struct Link {
    pub(crate) before: Option<usize>,
    pub(crate) slot: usize,
}
