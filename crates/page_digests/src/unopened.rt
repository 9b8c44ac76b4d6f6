// A content that isn't opened.
use crate::error::Error;

/// Why a content isn't opened, and its files: [`rebuild_levels`](crate::rebuild_levels) builds the
/// levels again from the content's.
#[derive(Drop)]
pub struct Unopened<F> {
    /// Why the top isn't known.
    pub error: Error,
    /// The content's file, of which nothing was read.
    pub file: F,
    /// The list's file.
    pub list_file: F,
}
