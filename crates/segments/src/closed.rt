// What is kept of a segment that was closed.
ghost use Rattle.std.specs.Prelude.{◌≡◌, ◌↔◌, true};
ghost use Rattle.sha2.specs.Sha256.{sha256};
ghost use Rattle.segments.specs.Kept.{IsOf};

use page_digests::Seal;
use sha2::{Digest, Sha256};

/// What is kept of a segment that was closed: how many records it has, and by what its content is
/// known.
#[derive(Clone, Copy)]
pub struct Closed {
    /// How many records the segment has.
    pub records: u64,
    /// By what its content is known.
    pub fingerprint: Fingerprint,
}

/// By what the content of a closed segment is known.
#[derive(Clone, Copy)]
pub enum Fingerprint {
    /// By the digest of its whole file. Logs of versions before 0.11 closed their segments so.
    Whole(FileDigest),
    /// By the digests of its pages.
    Paged(PagedSeal),
}

/// The length and the digest of a file.
#[derive(Clone, Copy)]
pub struct FileDigest {
    /// How many physical bytes the file has.
    pub len: u64,
    /// The SHA-256 of these bytes.
    pub digest: [u8; 32],
}

/// The seal of a content, the root of its marks, and the digest by which they were made.
#[derive(Clone, Copy)]
pub struct PagedSeal {
    /// The number of the digest (`NUMBER` of [`digest::Digest`]).
    pub number: u8,
    /// How many logical bytes the content has, and its root.
    pub seal: Seal,
    /// The root of the content's marks, by which it's known where its frames begin. `None` if
    /// version 0.11 or 0.12 closed the segment: it has no marks.
    pub marks: Option<[u8; 32]>,
}

impl FileDigest {
    /// The length and the digest of a file of these bytes.
    pub fn of(bytes: &[u8]) -> Self
        ensures { IsOf bytes.now result }
    {
        FileDigest {
            len: bytes.len() as u64,
            digest: digest_of(bytes),
        }
    }

    /// Whether a file of these bytes has this length and this digest.
    pub fn is_of(&self, bytes: &[u8]) -> bool
        ensures { (result ≡ true) ↔ IsOf bytes.now self.now }
    {
        self.len == bytes.len() as u64 && self.digest == digest_of(bytes)
    }
}

// The SHA-256 of some bytes.
fn digest_of(bytes: &[u8]) -> [u8; 32]
    ensures { result ≡ sha256 bytes.now }
{
    let mut hasher = Sha256::new();
    hasher.update(bytes);
    hasher.finalize()
}
