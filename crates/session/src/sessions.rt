// Sessions: lists of steps over one blob.
ghost use Rattle.std.specs.Prelude.{◌≡◌, ◌∷◌, [], ℕ, Vec, option_map, IfErr, OnOk, false};
ghost use Rattle.std.specs.declared.alloc.Global.{Global};
ghost use Rattle.cache.specs.CacheState.{CacheState};
ghost use Rattle.cache.specs.Pages.{IsFresh};
ghost use Rattle.paged_read.specs.Replay.{LeavesAllReplays};
ghost use Rattle.paged_read.specs.Snapshots.{LeavesAllTails};
ghost use Rattle.paged_read.specs.Tail.{CanRead, Tail};
ghost use Rattle.writer_state.specs.Sound.{IsSound};
ghost use Rattle.disk.specs.Disk.{Disk};
ghost use Rattle.paged.specs.Caches.{tail_of};
ghost use Rattle.paged.specs.Reads.{size_of};
ghost use Rattle.session.specs.Others.{LeavesOtherBlobs, WriterLeavesOthers};
ghost use Rattle.session.specs.Run.{CacheFits, FitsWriter, HasSoundWriter, IsSoundSession};
ghost use Rattle.session.specs.Run.{IsSessionReady, TookNone};
ghost use Rattle.session.specs.Promise.{Promises, RepresentsWhereSound, closed, session_of};
ghost use Rattle.session.specs.Calls.{DidBegin, is_given, IsOfEither, KeepsSnapshots};
ghost use Rattle.session.specs.Calls.{KeepsUncut};
ghost use Rattle.session.specs.Calls.{DidAppend, DidCall, DidTruncate, LeavesTaken, RunGoes};
ghost use Rattle.session.specs.Calls.{Steps, TakenBy};
ghost use Rattle.session.specs.Calls.{DidWaitFor};

use crate::held::Held;
use crate::names::Names;
use crate::phase::WriterPhase;
use crate::replays::forget;
use crate::steps::{Reply, Step};
use cache::CacheRef;
use disk::{Blob, Error, StartedSync};
use page::Sum;
use paged::{Recovery, Replay, Sealed, Writer, wait_sync};
use std::alloc::Global;
use std::marker::Model;

/// A writer that steps are taken on, or none, the names of the syncs that it started, and the
/// snapshots and the replays that were made of it.
///
/// A step whose call takes the writer and is refused closes the session, and so does a seal. A
/// closed session keeps its names, its snapshots and its replays: a caller can still wait for the
/// started syncs, read the snapshots, and go on with the replays. A truncate forgets the replays.
/// What isn't let go is kept until the session is dropped.
pub struct Session<B, H> {
    pub(crate) alloc: Global,
    pub(crate) phase: WriterPhase<B, H>,
    pub(crate) names: Names,
    // None in the place of one that was let go, or of a replay that was forgotten.
    pub(crate) snapshots: Vec<Option<Sealed<B, H>>>,
    pub(crate) replays: Vec<Option<Replay<B, H>>>,
}

// By hand, so that an owner lets one go by one call: of a derived drop, a proof follows each field
// at each exit.
impl<B, H> Drop for Session<B, H> {
    fn drop(self) {
        let Session {
            alloc: _,
            phase: _,
            names: _,
            snapshots: _,
            replays: _,
        } = self;
    }
}

impl<B, H> Model for Session<B, H> {
    ghost use Rattle.session.specs.Run.{SessionState};
    ghost use Rattle.session.specs.Phase.{is_in_recovery, writer_in};

    ghost Value = { SessionState };

    ghost view = { λ s. record {
      writer = writer_in s.phase;
      recovering = is_in_recovery s.phase;
      names = s.names.items;
      snapshots = s.snapshots.items;
      replays = s.replays.items;
    } };
}

impl<B, H> Session<B, H> {
    /// A session without a writer.
    pub fn closed(alloc: Global) -> Self
        ensures { result ≡ closed }
    {
        Session {
            alloc,
            phase: WriterPhase::Appending(Held::none(alloc)),
            names: Names::new(alloc),
            snapshots: Vec::new(alloc),
            replays: Vec::new(alloc),
        }
    }
}

impl<B: Blob, H: Sum> Session<B, H> {
    /// A session that begins with this writer, in recovery.
    pub fn new(alloc: Global, writer: Recovery<B, H>) -> Self
        ensures writer { result ≡ session_of writer }
        ensures represents { RepresentsWhereSound H.sum_of writer }
        ensures ready { (d : Disk) → IsSound H.sum_of writer d → IsSoundSession H.sum_of result d }
        ensures cached { (cache : CacheState) (d : Disk) → CanRead (tail_of writer) cache d
            → CacheFits result cache d }
    {
        Session {
            alloc,
            phase: WriterPhase::Recovery(Held {
                alloc,
                writer: Some(writer),
            }),
            names: Names::new(alloc),
            snapshots: Vec::new(alloc),
            replays: Vec::new(alloc),
        }
    }

    /// How many logical bytes the writer has; `None` where there is no writer.
    pub fn size(&self) -> Option<u64>
        ensures { result ≡ option_map size_of self.now.writer }
    {
        match &self.phase {
            WriterPhase::Recovery(held) => held.size(),
            WriterPhase::Appending(held) => held.size(),
        }
    }

    /// Takes one step.
    fn step(&mut self, blob: &mut B, cache: &mut CacheRef, step: &Step) -> Reply
        requires ready { IsSoundSession H.sum_of self.old (B.life blob.old).present }
        requires cached { CacheFits self.old cache.old (B.life blob.old).present }
        requires fresh { IsFresh cache.old }
        ensures goes { let old = B.life blob.old in let new = B.life blob.new in
            Steps H.sum_of step.now result self.old self.new old new }
        ensures calls { let old = B.life blob.old in let new = B.life blob.new in
            DidCall H.sum_of step.now result self.old self.new cache.old cache.new old new }
        ensures cached { CacheFits self.new cache.new (B.life blob.new).present }
        ensures fresh_ids { IsFresh cache.old → IsFresh cache.new }
        ensures others { LeavesOtherBlobs self.old self.new cache.old cache.new }
    {
        match step {
            Step::WaitSync(name) => self.wait_sync(blob, *name),
            Step::Begin => self.begin(),
            Step::Truncate(size) => self.truncate(blob, cache, *size),
            Step::Snapshot => self.snapshot(blob, cache),
            Step::TrySnapshot => self.try_snapshot(),
            Step::Snap(index, offset, len) => self.snap(blob, cache, *index, *offset, *len),
            Step::Seal => self.seal(blob, cache),
            Step::DropSnapshot(index) => self.drop_snapshot(*index),
            Step::Replay(buffer_size) => self.replay(blob, cache, *buffer_size),
            Step::Ensure(index, count) => self.ensure(blob, *index, *count),
            Step::Take(index, count) => self.take(*index, *count),
            Step::Seek(index, offset) => self.seek(*index, *offset),
            Step::DropReplay(index) => self.drop_replay(*index),
            _ => self.step_writer(blob, cache, step),
        }
    }

    /// Takes a step of the writer, in its phase.
    fn step_writer(&mut self, blob: &mut B, cache: &mut CacheRef, step: &Step) -> Reply
        requires either { IsOfEither step.now }
        requires sound { HasSoundWriter H.sum_of self.old.writer (B.life blob.old).present }
        requires cached { FitsWriter self.old.writer cache.old (B.life blob.old).present }
        requires fresh { IsFresh cache.old }
        ensures goes { let old = B.life blob.old in let new = B.life blob.new in
            TakenBy H.sum_of step.now self.old.writer self.new.writer self.old.names self.new.names
            cache.old cache.new old new result }
        ensures rest { KeepsSnapshots self.old self.new }
        ensures cached { FitsWriter self.new.writer cache.new (B.life blob.new).present }
        ensures fresh_ids { IsFresh cache.old → IsFresh cache.new }
        ensures tails { let old = B.life blob.old in let new = B.life blob.new in
            LeavesTaken H.sum_of self.old.writer self.new.writer cache.old cache.new old new }
    {
        match &mut self.phase {
            WriterPhase::Recovery(held) => held.step(&mut self.names, blob, cache, step),
            WriterPhase::Appending(held) => held.step(&mut self.names, blob, cache, step),
        }
    }

    /// Appends these bytes by the writer, in its phase.
    fn append(&mut self, blob: &mut B, cache: &mut CacheRef, bytes: &[u8]) -> Reply
        requires sound { HasSoundWriter H.sum_of self.old.writer (B.life blob.old).present }
        requires cached { FitsWriter self.old.writer cache.old (B.life blob.old).present }
        requires fresh { IsFresh cache.old }
        ensures goes { let old = B.life blob.old in let new = B.life blob.new in
            DidAppend H.sum_of self.old.writer self.new.writer bytes.now cache.old cache.new old
            new result }
        ensures names { self.new.names ≡ self.old.names }
        ensures rest { KeepsSnapshots self.old self.new }
        ensures cached { FitsWriter self.new.writer cache.new (B.life blob.new).present }
        ensures fresh_ids { IsFresh cache.old → IsFresh cache.new }
        ensures tails { let old = B.life blob.old in let new = B.life blob.new in
            LeavesTaken H.sum_of self.old.writer self.new.writer cache.old cache.new old new }
    {
        match &mut self.phase {
            WriterPhase::Recovery(held) => held.append(blob, cache, bytes),
            WriterPhase::Appending(held) => held.append(blob, cache, bytes),
        }
    }

    // The device is asked, not the writer, which may be gone.
    fn wait_sync(&self, blob: &mut B, name: u64) -> Reply
        ensures goes { let given = is_given self.now.names name in
            DidWaitFor given name (B.life blob.old) (B.life blob.new) result }
        ensures can_read { (t : Tail) (cache : CacheState)
            → CanRead t cache (B.life blob.old).present
            → CanRead t cache (B.life blob.new).present }
        ensures tails { (cache : CacheState)
            → LeavesAllTails H.sum_of cache cache (B.life blob.old) (B.life blob.new) }
        ensures replays { LeavesAllReplays (B.life blob.old) (B.life blob.new) }
    {
        if !self.names.has(name) {
            return Reply::NoSuch;
        }
        match wait_sync::<B, H>(blob, StartedSync::Named(name)) {
            Ok(()) => Reply::Done,
            Err(error) => Reply::Fault(error),
        }
    }

    fn begin(&mut self) -> Reply
        ensures goes { DidBegin self.old.writer self.old self.new result }
    {
        let taken = match &mut self.phase {
            WriterPhase::Recovery(held) => held.writer.take(),
            WriterPhase::Appending(held) => return held.reply(Reply::Done),
        };
        let Some(writer) = taken else {
            return Reply::Closed;
        };
        self.phase = WriterPhase::Appending(Held {
            alloc: self.alloc,
            writer: Some(Writer::from(writer)),
        });
        Reply::Done
    }

    // A writer in recovery is cut, and then no replay is left, even if the cut is refused.
    fn truncate(&mut self, blob: &mut B, cache: &mut CacheRef, size: u64) -> Reply
        requires sound { HasSoundWriter H.sum_of self.old.writer (B.life blob.old).present }
        requires cached { FitsWriter self.old.writer cache.old (B.life blob.old).present }
        ensures goes { let old = B.life blob.old in let new = B.life blob.new in
            DidTruncate H.sum_of self.old.recovering self.old.writer self.new.writer size cache.old
            cache.new old new result }
        ensures rest { KeepsUncut self.old self.new }
        ensures cached { FitsWriter self.new.writer cache.new (B.life blob.new).present }
        ensures fresh_ids { IsFresh cache.old → IsFresh cache.new }
        ensures turned { self.old.recovering ≡ false → cache.new ≡ cache.old }
        ensures others { WriterLeavesOthers self.old.writer self.new.writer cache.old cache.new }
    {
        match &mut self.phase {
            WriterPhase::Recovery(held) => {
                if held.writer.is_some() {
                    forget(&mut self.replays);
                }
                held.truncate(blob, cache, size)
            }
            WriterPhase::Appending(held) => held.reply(Reply::NotRecovering),
        }
    }
}

/// Appends bytes that it is lent, and answers the reply: it does what a [`run`] of the one step
/// [`Step::Append`] of these bytes does, but makes no list of steps or of replies.
///
/// `At` has the logical offset of the first byte. `Closed` if there is no writer. `Fault` if the
/// append was refused, which ends the writer: with the errors of
/// [`append_lent`](paged::Writer::append_lent).
pub fn append<B: Blob, H: Sum>(
    session: &mut Session<B, H>,
    blob: &mut B,
    cache: &mut CacheRef,
    bytes: &[u8],
) -> Reply
    requires ready { let old = (B.life blob.old).present in
        IsSessionReady H.sum_of session.old cache.old old }
    ensures ready { let new = (B.life blob.new).present in
        IsSessionReady H.sum_of session.new cache.new new }
    ensures runs { let old = B.life blob.old in let new = B.life blob.new in
        (owned : Vec ℕ Global) → owned.items ≡ bytes.now
        → RunGoes H.sum_of (Step.Append owned ∷ []) session.old session.new cache.old cache.new old
        new [] (result ∷ []) }
    ensures promises { let old = B.life blob.old in let new = B.life blob.new in
        (owned : Vec ℕ Global) → owned.items ≡ bytes.now
        → Promises H.sum_of (Step.Append owned ∷ []) session.old session.new old new []
        (result ∷ []) }
    ensures others { LeavesOtherBlobs session.old session.new cache.old cache.new }
{
    // A step has a vector: the proof takes this one, and gives it the bytes.
    let _owned: Vec<u8> = Vec::new(session.alloc);
    session.append(blob, cache, bytes)
}

/// Takes the steps in order over the session's blob, and adds one reply a step to `replies`. The
/// session's writer, if it has one, is sound over the blob (its invariant holds), the cache is the
/// one that it was made with, and both stay so.
///
/// A seal ends the writer, at every answer. Each of these ends it if it is refused: an append, a
/// sync, a start of a sync, a wait of the writer, a truncate, a snapshot, and the beginning of a
/// replay. Each later step that needs a writer replies `Closed`. A start, a snapshot, a replay or a
/// seal for whose name or number there is no memory changes nothing.
///
/// These leave the session as it was if they are refused: a try, a read of the writer or of a
/// snapshot, a scan, and a wait for a name. So does a try that replies `Nothing`. A replay of which
/// a step is refused stays at its logical offset.
///
/// A snapshot gives for good what was appended before it, even once the session is closed. Those
/// bytes are durable only by a sync, or by a started one that has completed, such as a seal's. A
/// crash ends the snapshot. A replay gives, in order, what was appended before it, until a truncate
/// forgets it or a crash ends it. Each keeps its memory until it is let go, or the session is
/// dropped. Letting one go asks no device, and changes nothing else: not the content, and no other
/// snapshot or replay.
///
/// Room for all the replies is made first. The only error is `OutOfMemory`, where that room is
/// refused: then no step was taken.
pub fn run<B: Blob, H: Sum>(
    session: &mut Session<B, H>,
    blob: &mut B,
    cache: &mut CacheRef,
    steps: &[Step],
    replies: &mut Vec<Reply>,
) -> Result<(), Error>
    requires ready { let old = (B.life blob.old).present in
        IsSessionReady H.sum_of session.old cache.old old }
    ensures ready { let new = (B.life blob.new).present in
        IsSessionReady H.sum_of session.new cache.new new }

    // What holds at each moment of each step, whatever the session stood for before. For each step
    // also what its call promises: which bytes, how many device calls, what is put in the cache.
    ensures runs { let old = B.life blob.old in let new = B.life blob.new in
        OnOk result (RunGoes H.sum_of steps.now session.old session.new cache.old cache.new
        old new replies.old.items replies.new.items) }

    // What crashes and recoveries bring back from any of these moments keeps the floor (the durable
    // prefix) that the content had at that moment.
    ensures promises { let old = B.life blob.old in let new = B.life blob.new in
        OnOk result (Promises H.sum_of steps.now session.old session.new old new
        replies.old.items replies.new.items) }

    // What can be read of another blob on the cache, such as a second session's, can be read on.
    // The session's writer and its snapshots are still of none of those blobs.
    ensures others { LeavesOtherBlobs session.old session.new cache.old cache.new }
    ensures refused { let old = B.life blob.old in let new = B.life blob.new in
        IfErr result (λ e. TookNone e session.old session.new cache.old cache.new old new
        replies.old.items replies.new.items) }
{
    replies.try_reserve(steps.len())?;
    for step in steps {
        let reply = session.step(blob, cache, step);
        replies.push_reserved(reply);
    }
    Ok(())
}
