// Where a record stands.

/// Where a record stands: its segment, and the offset of its frame in that, in logical bytes.
#[derive(Clone, Copy, Debug, PartialEq, Eq)]
pub struct Place {
    /// The number of the segment.
    pub segment: u64,
    /// The offset of the frame.
    pub offset: u64,
}
