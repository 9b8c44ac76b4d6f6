// Steps that let go of what a session keeps.
ghost use Rattle.std.specs.Prelude.{◌≡◌};
ghost use Rattle.session.specs.Calls.{KeepsAllButReplays, KeepsAllButSnapshots, LetsGo};
ghost use Rattle.session.specs.Run.{count_open};

use crate::Session;
use crate::steps::Reply;

impl<B, H> Session<B, H> {
    /// How many snapshots the session keeps: those that it made, except for those that were let go.
    /// The call goes through every number that was given.
    pub fn open_snapshots(&self) -> usize
        ensures { result ≡ count_open self.now.snapshots }
    {
        count_open(&self.snapshots)
    }

    /// How many replays the session keeps: those that it began, except for those that were let go
    /// or that a truncate forgot. The call goes through every number that was given.
    pub fn open_replays(&self) -> usize
        ensures { result ≡ count_open self.now.replays }
    {
        count_open(&self.replays)
    }

    pub(crate) fn drop_snapshot(&mut self, index: usize) -> Reply
        ensures goes { LetsGo index self.old.snapshots self.new.snapshots result }
        ensures rest { KeepsAllButSnapshots self.old self.new }
    {
        let_go(&mut self.snapshots, index)
    }

    pub(crate) fn drop_replay(&mut self, index: usize) -> Reply
        ensures goes { LetsGo index self.old.replays self.new.replays result }
        ensures rest { KeepsAllButReplays self.old self.new }
    {
        let_go(&mut self.replays, index)
    }
}

// The place stays, so that no number is given twice.
fn let_go<T: Drop>(all: &mut Vec<Option<T>>, index: usize) -> Reply
    ensures { LetsGo index all.old.items all.new.items result }
{
    let Some(Some(_)) = all.get(index) else {
        return Reply::NoSuch;
    };
    all[index] = None;
    Reply::Done
}

// How many have something in their place.
fn count_open<T>(all: &[Option<T>]) -> usize
    ensures { result ≡ count_open all.now }
{
    all.iter().filter(|one| one.is_some()).count()
}
