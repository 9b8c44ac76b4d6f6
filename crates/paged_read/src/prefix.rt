// What a search through the pages of a blob finds.
use disk::IoBuf;
use page::ActiveChecksum;

/// The value of a page that isn't full, and the checksum slot that covers it. `None` where the page
/// has no value.
pub type Partial = Option<(IoBuf, ActiveChecksum)>;

/// The pages at the front of a blob that are full or count as full, and the value of the page
/// after them, if it has one.
#[derive(Drop)]
pub struct Prefix {
    /// How many pages are or count as full.
    pub full_pages: u64,
    /// The value of the page after the full ones, if it has one.
    pub partial: Partial,
}
