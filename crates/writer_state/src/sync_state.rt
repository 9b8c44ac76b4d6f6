// Whether what was written is durable.
ghost use Rattle.std.specs.Prelude.{◌≡◌};
ghost use Rattle.writer_state.specs.WriterState.{started_state, state_after_write};

use disk::StartedSync;

/// Whether a writer has written or resized anything that isn't durable yet.
#[derive(Clone, Copy, Debug, PartialEq, Eq)]
pub enum SyncState {
    /// All is durable.
    Clean,
    /// Something isn't durable, and no started sync covers it.
    Dirty,
    /// The started sync of this name covers all that isn't durable.
    Pending(u64),
}

impl SyncState {
    /// The state after a write: `Clean` where the write was durable at once (`sync`), else `Dirty`.
    pub fn after_write(sync: bool) -> Self
        ensures { result ≡ state_after_write sync }
    {
        if sync {
            SyncState::Clean
        } else {
            SyncState::Dirty
        }
    }

    /// The state after a start of a sync, by what that answered.
    pub fn after_start(started: StartedSync) -> Self
        ensures { result ≡ started_state started }
    {
        match started {
            StartedSync::Done => SyncState::Clean,
            StartedSync::Named(name) => SyncState::Pending(name),
        }
    }
}
