//! A map from keys to values that a journal keeps. Each put and each delete is a record of the
//! journal, and opening the store makes all of them again. A crash keeps what was committed: each
//! key comes back with the value that its last committed change gave it, or a later change.
#![tactic(auto)]

mod map;
mod store;

pub use store::{OpenError, Store, crash_and_open};
