//! Sessions: lists of steps over one blob, what a run of them did at each moment, and what comes
//! back after a crash.
#![tactic(auto)]

mod drops;
mod held;
mod names;
mod phase;
mod reads;
mod recoveries;
mod replays;
mod sessions;
mod snapshots;
mod steps;

pub use sessions::{Session, append, run};
pub use steps::{Reply, Step};
