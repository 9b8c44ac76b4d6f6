//! Digests of 32 bytes: SHA-512/256, and one that is faster and keeps no adversary out.
//! docs/DIGEST.md says what they are for and how they are computed.
#![tactic(auto)]

mod digest;
mod poly;
mod powers;
mod sha;
mod words;

pub use digest::Digest;
pub use poly::PolyDigest;
pub use sha::ShaDigest;
