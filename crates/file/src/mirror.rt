// A blob whose bytes stand in memory, and whose calls are passed on to a host.
ghost use Rattle.std.specs.Prelude.{◌≡◌, [], ◌∷◌, ◌++◌, length, is_some, is_ok, IfErr};
ghost use Rattle.std.specs.Prelude.{true, false};
ghost use Rattle.std.specs.List.{concat};
ghost use Rattle.disk.specs.Disk.{DeviceReadGoes, DeviceReadManyGoes, WriteGoes, ResizeGoes};
ghost use Rattle.disk.specs.Disk.{SyncGoes, StartReadGoes, StartGoes, WaitStartedGoes};
ghost use Rattle.disk.specs.History.{life_of, begun};
ghost use Rattle.disk.specs.declared.action.Action.TheVariants as actions;
ghost use Rattle.file.specs.Asked.{Answers, Passes, WasAsked, ends_in_failed_sync, outcome};
ghost use Rattle.file.specs.Mirror.{requested, tells_failed_sync};

use crate::Host;
use disk::{
    Blob, Error, IoBuf, IoBufs, ReadOptions, StartedRead, StartedSync, VecBlob, WriteOptions,
};
use std::alloc::Global;
use std::io;
use std::marker::Model;

/// A blob that keeps all its bytes in memory, and passes each write, resize and sync on to a host,
/// as a file.
///
/// A call that answers `OffsetOverflow`, `BlobInsufficientLength` or `OutOfMemory` asks the host
/// for nothing, and a read never asks it. Each other call asks the host first, and then does the
/// same in memory. For a started sync the host is asked at the wait: a wait for it makes durable
/// all that was written before the wait.
///
/// **After the first call of the host that failed, each later call fails** with its own error: a
/// write with `WriteFailed`, and so on. A start of a sync still answers `Ok`, and the wait for that
/// sync fails. The host is asked for nothing more. After a failed write the host may hold any part
/// of that write, so a later sync that answers `Ok` would call durable what isn't there. After a
/// failed sync a system may have dropped what it was to write. [`failure`](Mirror::failure) reports
/// why the host failed, and [`failed_sync`](Mirror::failed_sync) whether that was a sync. After a
/// failed write or resize open the host anew, and recover. After a failed sync that isn't enough:
/// the host is to be replaced by a new one with the same bytes, and then recovered.
pub struct Mirror<S: Host> {
    host: S,
    kept: VecBlob,
    failure: Option<Failure>,
}

// Why a host failed, and whether the call that failed was a sync.
#[derive(Drop)]
struct Failure {
    error: io::Error,
    is_sync: bool,
}

// By hand, so that an owner lets one go by one call: of a derived drop, a proof follows each field
// at each exit.
impl<S: Host + Drop> Drop for Mirror<S> {
    fn drop(self) {
        let Mirror {
            host: _,
            kept: _,
            failure: _,
        } = self;
    }
}

impl<S: Host> Model for Mirror<S> {
    ghost use Rattle.std.specs.Prelude.{◌≡◌, is_some};
    ghost use Rattle.file.specs.Asked.{WasAsked, ends_in_failed_sync};
    ghost use Rattle.file.specs.Mirror.{MirrorState, tells_failed_sync};

    ghost Value = { MirrorState };

    ghost view = { λ m. record { kept = m.kept; asked = S.asked m.host } };

    ghost invariant = { λ m. WasAsked m.kept.stopped m.kept.history.events (S.asked m.host)
        × (is_some m.failure ≡ m.kept.stopped)
        × (tells_failed_sync m.failure ≡ ends_in_failed_sync (S.asked m.host)) };
}

// What a host is to be asked for.
#[derive(Clone, Copy)]
enum Request<'a> {
    Write(u64, &'a IoBufs, bool),
    Resize(u64),
    Sync,
}

impl<S: Host> Mirror<S> {
    /// A blob over a host that holds these bytes, all of them durable, and that was asked for
    /// nothing yet.
    pub fn new(host: S, bytes: Vec<u8>) -> Self
        requires asked { S.asked host ≡ [] }
        ensures life { life_of result.kept.history ≡ begun bytes.items [] }
        ensures asked { result.asked ≡ [] }
        ensures well { result.kept.stopped ≡ false }
    {
        Mirror {
            host,
            kept: VecBlob::from_vec(bytes),
            failure: None,
        }
    }

    /// What a read of all bytes would give.
    pub fn bytes(&self) -> &[u8]
        ensures { result.now ≡ (life_of self.now.kept.history).present.readable }
    {
        self.kept.bytes()
    }

    /// Why the host failed, or `None` where it hasn't. Once it has, each later call fails.
    pub fn failure(&self) -> Option<&io::Error>
        ensures { is_some result ≡ self.now.kept.stopped }
    {
        match &self.failure {
            Some(failure) => Some(&failure.error),
            None => None,
        }
    }

    /// Whether the call of the host that failed was a sync: that of a sync, of a wait for a started
    /// one, or of a write that was to be durable. The error of such a write is `WriteFailed`, as of
    /// any other, so this alone tells its failed sync from a failed write.
    ///
    /// After a failed sync nobody knows which bytes of the host are durable, and a later sync may
    /// answer `Ok` without them. So put a new file with the same bytes in its place
    /// ([`replace`](crate::replace)) before it is recovered.
    pub fn failed_sync(&self) -> bool
        ensures { result ≡ ends_in_failed_sync self.now.asked }
    {
        match &self.failure {
            Some(failure) => failure.is_sync,
            None => false,
        }
    }

    /// The host. It was asked for exactly the writes, resizes and syncs that the blob's life needs,
    /// in that order, up to its first call that failed, and for nothing since.
    pub fn host(&self) -> &S
        ensures same { S.asked result.now ≡ self.now.asked }
        ensures asked { let events = self.now.kept.history.events in
            WasAsked self.now.kept.stopped events (S.asked result.now) }
    {
        &self.host
    }
}

// Asks the host, unless the host has failed before. Where it fails now, the blob in memory fails
// from then on.
fn pass_on<S: Host>(
    host: &mut S,
    kept: &mut VecBlob,
    failure: &mut Option<Failure>,
    request: Request<'_>,
)
    requires failure { is_some failure.old ≡ kept.old.stopped }
    requires told { tells_failed_sync failure.old ≡ ends_in_failed_sync (S.asked host.old) }
    ensures history { kept.new.history ≡ kept.old.history }
    ensures room { kept.new.room ≡ kept.old.room }
    ensures failure { is_some failure.new ≡ kept.new.stopped }
    ensures passes { Passes kept.old.stopped kept.new.stopped (requested request.entry)
        (S.asked host.old) (S.asked host.new) }
    ensures told { tells_failed_sync failure.new ≡ ends_in_failed_sync (S.asked host.new) }
{
    if kept.is_stopped() {
        return;
    }
    if let Err(failed) = ask(host, request) {
        kept.stop();
        *failure = Some(failed);
    }
}

// Asks the host for what a request needs, up to the first call that fails.
fn ask<S: Host>(host: &mut S, request: Request<'_>) -> Result<(), Failure>
    ensures answers { Answers (requested request.entry) (S.asked host.old) (S.asked host.new)
        result }
    ensures told { IfErr result (λ failed.
        failed.is_sync ≡ ends_in_failed_sync (S.asked host.new)) }
{
    match request {
        Request::Write(offset, bufs, sync) => {
            other_call(host.put(offset, bufs))?;
            if sync { ask_sync(host) } else { Ok(()) }
        }
        Request::Resize(len) => other_call(host.set_len(len)),
        Request::Sync => ask_sync(host),
    }
}

fn ask_sync<S: Host>(host: &mut S) -> Result<(), Failure>
    ensures asked { S.asked host.new ≡ S.asked host.old ++ outcome actions.Sync result ∷ [] }
    ensures told { IfErr result (λ failed. failed.is_sync ≡ true) }
{
    match host.sync() {
        Ok(()) => Ok(()),
        Err(error) => Err(Failure {
            error,
            is_sync: true,
        }),
    }
}

// The answer of a call of the host that is no sync.
fn other_call(answer: io::Result<()>) -> Result<(), Failure>
    ensures ok { is_ok result ≡ is_ok answer }
    ensures told { IfErr result (λ failed. failed.is_sync ≡ false) }
{
    match answer {
        Ok(()) => Ok(()),
        Err(error) => Err(Failure {
            error,
            is_sync: false,
        }),
    }
}

impl<S: Host> Blob for Mirror<S> {
    ghost use Rattle.disk.specs.Lives.{life_reads, life_covers};

    ghost life = { λ m. life_of m.kept.history };

    fn len(&self) -> u64 {
        self.kept.len()
    }

    fn read_at(
        &mut self,
        alloc: Global,
        offset: u64,
        len: usize,
        options: ReadOptions,
    ) -> Result<IoBuf, Error> {
        self.kept.read_at(alloc, offset, len, options)
    }

    fn read_many(
        &mut self,
        alloc: Global,
        ranges: &[(u64, usize)],
        options: ReadOptions,
        out: &mut Vec<(usize, IoBuf)>,
    ) -> Result<(), Error> {
        self.kept.read_many(alloc, ranges, options, out)
    }

    fn start_read_many(
        &mut self,
        alloc: Global,
        ranges: &[(u64, usize)],
        options: ReadOptions,
    ) -> StartedRead {
        self.kept.start_read_many(alloc, ranges, options)
    }

    fn write_at(&mut self, offset: u64, bufs: &IoBufs, options: WriteOptions) -> Result<(), Error> {
        self.kept.reserve(offset, bufs.len())?;
        let request = Request::Write(offset, bufs, options.sync);
        pass_on(&mut self.host, &mut self.kept, &mut self.failure, request);
        self.kept.write_at(offset, bufs, options)
    }

    fn resize(&mut self, len: u64) -> Result<(), Error> {
        self.kept.reserve(len, 0)?;
        let request = Request::Resize(len);
        pass_on(&mut self.host, &mut self.kept, &mut self.failure, request);
        self.kept.resize(len)
    }

    fn sync(&mut self) -> Result<(), Error> {
        pass_on(
            &mut self.host,
            &mut self.kept,
            &mut self.failure,
            Request::Sync,
        );
        self.kept.sync()
    }

    fn start_sync(&mut self) -> Result<StartedSync, Error> {
        self.kept.start_sync()
    }

    fn wait_sync(&mut self, started: StartedSync) -> Result<(), Error> {
        let StartedSync::Named(_) = started else {
            return Ok(());
        };
        pass_on(
            &mut self.host,
            &mut self.kept,
            &mut self.failure,
            Request::Sync,
        );
        self.kept.wait_sync(started)
    }

    ghost readable_is_image = { λ m. life_reads m.kept.history };

    ghost starts_are_covered = { λ m. life_covers m.kept.history };
}
