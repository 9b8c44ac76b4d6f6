// The seal of a content.

/// What is kept of a closed content: 40 bytes, by which all of it is known.
#[derive(Clone, Copy)]
pub struct Seal {
    /// How many bytes the content has.
    pub len: u64,
    /// The content's root: the digest of its top.
    pub root: [u8; 32],
}
