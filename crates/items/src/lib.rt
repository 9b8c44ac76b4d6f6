//! Items of one size in a paged blob: each has a number, and a crash keeps whole ones alone.
#![tactic(auto)]

mod crashes;
mod items;
mod locate;
mod replay;
mod run;
mod snapshot;

pub use crashes::crash_and_recover;
pub use items::Items;
pub use replay::ItemsReplay;
pub use run::{ItemReply, ItemSession, ItemStep, run_items};
pub use snapshot::ItemsSnapshot;
