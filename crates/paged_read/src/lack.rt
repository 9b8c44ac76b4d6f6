// Pieces that a read of many ranges lacks.
use cache::Piece;

/// A piece of a page that is to be read.
#[derive(Clone, Copy, Debug, PartialEq, Eq)]
pub(crate) struct Lack {
    /// The page's number among those that are to be read.
    pub(crate) number: usize,
    pub(crate) piece: Piece,
}
