//! What a crash keeps: the words that the contracts of the layers above cite, and the laws about
//! them. No code of the program stands here: the one function is the clause of a law.
//!
//! An image is a possible state of the blob's bytes after a crash. Its text is what a recovery
//! keeps of it. A floor is a durable prefix of the content, in bytes. An image is chance-free if no
//! slot of it verifies by a checksum collision; "chance aside" means "for each chance-free image".
#![tactic(auto)]

mod laws;

pub use laws::chance_needs_a_collision;
