//! Tests of what only a system has: a file, its lock and its folder, and an input or an output that
//! fails; and of the checksum and the digests as they were built, and of contents that are known by
//! digests. The crate has no code of its own.
#![tactic(auto)]

#[cfg(test)]
mod checksum;
#[cfg(test)]
mod contents;
#[cfg(test)]
mod digests;
#[cfg(test)]
mod files;
#[cfg(test)]
mod folders;
#[cfg(test)]
mod streams;
