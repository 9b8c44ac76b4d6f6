// Steps that make snapshots and read them.
ghost use Rattle.std.specs.Prelude.{◌≡◌, All, IfSome};
ghost use Rattle.cache.specs.Pages.{IsFresh};
ghost use Rattle.paged_read.specs.Replay.{LeavesAllReplays};
ghost use Rattle.paged_read.specs.Snapshots.{LeavesAllReads, LeavesAllTails, LeavesAllWriters};
ghost use Rattle.paged_read.specs.Tail.{CanRead, HasFullPages};
ghost use Rattle.session.specs.Calls.{DidSeal, DidSnap, DidSnapshot, DidTrySnapshot};
ghost use Rattle.session.specs.Calls.{LeavesTaken};
ghost use Rattle.session.specs.Others.{LeavesOtherBlobs};
ghost use Rattle.session.specs.Run.{FitsWriter, HasSoundWriter, numbered};

use crate::Session;
use crate::phase::WriterPhase;
use crate::reads::room_within;
use crate::steps::Reply;
use cache::CacheRef;
use disk::{Blob, Error, StartedSync};
use page::Sum;

impl<B: Blob, H: Sum> Session<B, H> {
    // Room for the snapshot is made first. If it is refused, nothing is done and the writer stays.
    pub(crate) fn snapshot(&mut self, blob: &mut B, cache: &mut CacheRef) -> Reply
        requires sound { HasSoundWriter H.sum_of self.old.writer (B.life blob.old).present }
        requires cached { FitsWriter self.old.writer cache.old (B.life blob.old).present }
        requires fresh { IsFresh cache.old }
        ensures goes { let old = B.life blob.old in let new = B.life blob.new in
            DidSnapshot H.sum_of self.old self.new cache.old cache.new old new result }
        ensures cached { FitsWriter self.new.writer cache.new (B.life blob.new).present }
        ensures fresh_ids { IsFresh cache.old → IsFresh cache.new }
        ensures tails { let old = B.life blob.old in let new = B.life blob.new in
            LeavesTaken H.sum_of self.old.writer self.new.writer cache.old cache.new old new }
    {
        let held = match &mut self.phase {
            WriterPhase::Recovery(held) => return held.reply(Reply::NotAppending),
            WriterPhase::Appending(held) => held,
        };
        let Some(writer) = held.writer.take() else {
            return Reply::Closed;
        };
        if self.snapshots.try_reserve(1).is_err() {
            held.writer = Some(writer);
            return Reply::Fault(Error::OutOfMemory);
        }
        match writer.snapshot(blob, cache) {
            Ok((writer, snapshot)) => {
                held.writer = Some(writer);
                let index = self.snapshots.len();
                self.snapshots.push_reserved(Some(snapshot));
                Reply::Taken(index)
            }
            Err(error) => Reply::Fault(error),
        }
    }

    pub(crate) fn try_snapshot(&mut self) -> Reply
        ensures { DidTrySnapshot self.old self.new result }
    {
        let held = match &self.phase {
            WriterPhase::Recovery(held) => return held.reply(Reply::NotAppending),
            WriterPhase::Appending(held) => held,
        };
        let Some(writer) = &held.writer else {
            return Reply::Closed;
        };
        if self.snapshots.try_reserve(1).is_err() {
            return Reply::Fault(Error::OutOfMemory);
        }
        match writer.try_snapshot() {
            Ok(Some(snapshot)) => {
                let index = self.snapshots.len();
                self.snapshots.push_reserved(Some(snapshot));
                Reply::Taken(index)
            }
            Ok(None) => Reply::Nothing,
            Err(error) => Reply::Fault(error),
        }
    }

    // Room for the snapshot and for the name is made first.
    pub(crate) fn seal(&mut self, blob: &mut B, cache: &mut CacheRef) -> Reply
        requires sound { HasSoundWriter H.sum_of self.old.writer (B.life blob.old).present }
        requires cached { FitsWriter self.old.writer cache.old (B.life blob.old).present }
        requires fresh { IsFresh cache.old }
        ensures goes { let old = B.life blob.old in let new = B.life blob.new in
            DidSeal H.sum_of self.old self.new cache.old cache.new old new result }
        ensures cached { FitsWriter self.new.writer cache.new (B.life blob.new).present }
        ensures fresh_ids { IsFresh cache.old → IsFresh cache.new }
        ensures tails { let old = B.life blob.old in let new = B.life blob.new in
            LeavesTaken H.sum_of self.old.writer self.new.writer cache.old cache.new old new }
    {
        let held = match &mut self.phase {
            WriterPhase::Recovery(held) => return held.reply(Reply::NotAppending),
            WriterPhase::Appending(held) => held,
        };
        let Some(writer) = held.writer.take() else {
            return Reply::Closed;
        };
        if self.snapshots.try_reserve(1).is_err() || self.names.make_room().is_err() {
            held.writer = Some(writer);
            return Reply::Fault(Error::OutOfMemory);
        }
        match writer.seal(blob, cache) {
            Ok((snapshot, started)) => {
                let index = self.snapshots.len();
                self.snapshots.push_reserved(Some(snapshot));
                if let StartedSync::Named(name) = started {
                    self.names.add(name);
                }
                Reply::Sealed(index, started)
            }
            Err(error) => Reply::Fault(error),
        }
    }

    // The snapshot is read without the writer, which may be gone.
    pub(crate) fn snap(
        &self,
        blob: &mut B,
        cache: &mut CacheRef,
        index: usize,
        offset: u64,
        len: usize,
    ) -> Reply
        requires full { let old = (B.life blob.old).present in
            All (λ o. IfSome o (λ t. HasFullPages H.sum_of t old)) self.now.snapshots }
        requires can { let old = (B.life blob.old).present in
            All (λ o. IfSome o (λ t. CanRead t cache.old old)) self.now.snapshots }
        ensures goes { let old = B.life blob.old in let new = B.life blob.new in
            DidSnap H.sum_of (numbered self.now.snapshots index) cache.old cache.new offset len old
            new result }
        ensures fresh_ids { IsFresh cache.old → IsFresh cache.new }
        ensures writers { LeavesAllWriters H.sum_of (B.life blob.old) (B.life blob.new) }
        ensures tails { let old = B.life blob.old in let new = B.life blob.new in
            LeavesAllTails H.sum_of cache.old cache.new old new }
        ensures replays { LeavesAllReplays (B.life blob.old) (B.life blob.new) }
        ensures can_read { let old = B.life blob.old in let new = B.life blob.new in
            LeavesAllReads cache.old cache.new old new }
        ensures others { LeavesOtherBlobs self.now self.now cache.old cache.new }
    {
        let Some(Some(snapshot)) = self.snapshots.get(index) else {
            return Reply::NoSuch;
        };
        let mut bytes = match room_within(self.alloc, snapshot.size(), offset, len) {
            Ok(bytes) => bytes,
            Err(error) => return Reply::Fault(error),
        };
        match snapshot.read_into(blob, cache, &mut bytes, offset) {
            Ok(()) => Reply::Bytes(bytes),
            Err(error) => Reply::Fault(error),
        }
    }
}
