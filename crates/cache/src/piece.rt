// Pieces of pages.

/// Some logical bytes of a page, and the place in a buffer where they are to go.
#[derive(Clone, Copy, Debug, PartialEq, Eq)]
pub struct Piece {
    /// The page's number.
    pub page: u64,
    /// The byte of the page with which the piece begins.
    pub skip: usize,
    /// Where the piece goes in the buffer, in bytes.
    pub place: usize,
    /// How many bytes the piece has.
    pub len: usize,
}
