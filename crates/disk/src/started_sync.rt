// Syncs that were started.

/// What a call that starts a sync answers, to be waited for.
#[derive(Clone, Copy, Debug, PartialEq, Eq)]
pub enum StartedSync {
    /// Nothing was to be made durable: there is nothing to wait for.
    Done,
    /// A sync that the blob started, by the name that it gave.
    Named(u64),
}
