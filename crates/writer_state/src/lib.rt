//! A writer's state as contracts see it: what the writer holds, how much of that is durable, and
//! when the writer is sound; and the laws about it. A sound writer meets its invariant, from which
//! follows what a crash between two calls keeps. The one type of code is the state of its syncs.
#![tactic(auto)]

mod sync_state;

pub use sync_state::SyncState;
