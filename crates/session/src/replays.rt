// Steps that begin replays, and go on with them.
ghost use Rattle.std.specs.Prelude.{◌≡◌, All, map, None, ⊤};
ghost use Rattle.std.specs.Int.NonZero.{non_zero_usize_get};
ghost use Rattle.cache.specs.Pages.{IsFresh};
ghost use Rattle.crash.specs.Looks.{Looked};
ghost use Rattle.paged_read.specs.Replay.{ReplaysOn};
ghost use Rattle.session.specs.Calls.{AtReplay, EnsureSays, KeepsAllButReplays, ReplayCanGoOn};
ghost use Rattle.session.specs.Calls.{KeepsButReplays, LeavesTaken, OfReplay, SeeksOf, TakesOf};
ghost use Rattle.session.specs.Calls.{TakesReplay};
ghost use Rattle.session.specs.Run.{FitsWriter, HasSoundWriter};

use crate::Session;
use crate::held::Held;
use crate::phase::WriterPhase;
use crate::steps::Reply;
use cache::CacheRef;
use disk::{Blob, Error, ReadOptions};
use page::Sum;
use paged::Replay;
use std::alloc::Global;
use std::num::NonZeroUsize;

impl<B: Blob, H: Sum, Phase> Held<B, H, Phase> {
    // Room for the replay is made first. If it is refused, nothing is done and the writer stays.
    fn replay(
        &mut self,
        replays: &mut Vec<Option<Replay<B, H>>>,
        blob: &mut B,
        cache: &mut CacheRef,
        buffer_size: NonZeroUsize,
    ) -> Reply
        requires sound { HasSoundWriter H.sum_of self.old (B.life blob.old).present }
        requires cached { FitsWriter self.old cache.old (B.life blob.old).present }
        requires fresh { IsFresh cache.old }
        ensures goes { let old = B.life blob.old in let new = B.life blob.new in
            TakesReplay H.sum_of self.old self.new replays.old.items replays.new.items
            (non_zero_usize_get buffer_size) cache.old cache.new old new result }
        ensures cached { FitsWriter self.new cache.new (B.life blob.new).present }
        ensures fresh_ids { IsFresh cache.old → IsFresh cache.new }
        ensures tails { let old = B.life blob.old in let new = B.life blob.new in
            LeavesTaken H.sum_of self.old self.new cache.old cache.new old new }
    {
        let Some(writer) = self.writer.take() else {
            return Reply::Closed;
        };
        if replays.try_reserve(1).is_err() {
            self.writer = Some(writer);
            return Reply::Fault(Error::OutOfMemory);
        }
        match writer.replay(blob, cache, buffer_size, ReadOptions::default()) {
            Ok((writer, replay)) => {
                self.writer = Some(writer);
                let index = replays.len();
                replays.push_reserved(Some(replay));
                Reply::Replaying(index)
            }
            Err(error) => Reply::Fault(error),
        }
    }
}

impl<B, H> Session<B, H> {
    pub(crate) fn take(&mut self, index: usize, count: usize) -> Reply
        ensures goes { AtReplay index self.old.replays self.new.replays result ⊤ (λ r q.
            TakesOf r q count result × ReplaysOn r q) }
        ensures rest { KeepsAllButReplays self.old self.new }
    {
        take_at(self.alloc, &mut self.replays, index, count)
    }

    pub(crate) fn seek(&mut self, index: usize, offset: u64) -> Reply
        ensures goes { AtReplay index self.old.replays self.new.replays result ⊤ (λ r q.
            SeeksOf r q offset result × ReplaysOn r q) }
        ensures rest { KeepsAllButReplays self.old self.new }
    {
        seek_at(&mut self.replays, index, offset)
    }
}

impl<B: Blob, H: Sum> Session<B, H> {
    /// Begins a replay of the writer's blob, in the phase that the writer is in.
    pub(crate) fn replay(
        &mut self,
        blob: &mut B,
        cache: &mut CacheRef,
        buffer_size: NonZeroUsize,
    ) -> Reply
        requires sound { HasSoundWriter H.sum_of self.old.writer (B.life blob.old).present }
        requires cached { FitsWriter self.old.writer cache.old (B.life blob.old).present }
        requires fresh { IsFresh cache.old }
        ensures goes { let old = B.life blob.old in let new = B.life blob.new in
            TakesReplay H.sum_of self.old.writer self.new.writer self.old.replays self.new.replays
            (non_zero_usize_get buffer_size) cache.old cache.new old new result }
        ensures rest { KeepsButReplays self.old self.new }
        ensures cached { FitsWriter self.new.writer cache.new (B.life blob.new).present }
        ensures fresh_ids { IsFresh cache.old → IsFresh cache.new }
        ensures tails { let old = B.life blob.old in let new = B.life blob.new in
            LeavesTaken H.sum_of self.old.writer self.new.writer cache.old cache.new old new }
    {
        match &mut self.phase {
            WriterPhase::Recovery(held) => {
                held.replay(&mut self.replays, blob, cache, buffer_size)
            }
            WriterPhase::Appending(held) => {
                held.replay(&mut self.replays, blob, cache, buffer_size)
            }
        }
    }

    // The replay goes on without the writer, which may be gone.
    pub(crate) fn ensure(&mut self, blob: &mut B, index: usize, count: usize) -> Reply
        requires can { let old = (B.life blob.old).present in
            All (λ o. ReplayCanGoOn o old) self.old.replays }
        ensures goes { let old = B.life blob.old in let new = B.life blob.new in
            AtReplay index self.old.replays self.new.replays result (new ≡ old) (λ r q.
            EnsureSays H.sum_of r q count old new result) }
        ensures rest { KeepsAllButReplays self.old self.new }
        ensures looked { Looked (B.life blob.old) (B.life blob.new) }
    {
        ensure_at(&mut self.replays, blob, index, count)
    }
}

/// Forgets these replays, whose numbers aren't given again.
pub(crate) fn forget<B, H>(replays: &mut Vec<Option<Replay<B, H>>>)
    ensures { replays.new.items ≡ map (λ o. None) replays.old.items }
{
    for index in 0..replays.len() {
        replays[index] = None;
    }
}

fn take_at<B, H>(
    alloc: Global,
    replays: &mut Vec<Option<Replay<B, H>>>,
    index: usize,
    count: usize,
) -> Reply
    ensures { AtReplay index replays.old.items replays.new.items result ⊤ (λ r q.
        TakesOf r q count result × ReplaysOn r q) }
{
    match replays.get_mut(index) {
        Some(replay) => take_of(alloc, replay, count),
        None => Reply::NoSuch,
    }
}

fn seek_at<B, H>(replays: &mut Vec<Option<Replay<B, H>>>, index: usize, offset: u64) -> Reply
    ensures { AtReplay index replays.old.items replays.new.items result ⊤ (λ r q.
        SeeksOf r q offset result × ReplaysOn r q) }
{
    match replays.get_mut(index) {
        Some(replay) => seek_of(replay, offset),
        None => Reply::NoSuch,
    }
}

fn ensure_at<B: Blob, H: Sum>(
    replays: &mut Vec<Option<Replay<B, H>>>,
    blob: &mut B,
    index: usize,
    count: usize,
) -> Reply
    requires can { let old = (B.life blob.old).present in
        All (λ o. ReplayCanGoOn o old) replays.old.items }
    ensures goes { let old = B.life blob.old in let new = B.life blob.new in
        AtReplay index replays.old.items replays.new.items result (new ≡ old) (λ r q.
        EnsureSays H.sum_of r q count old new result) }
    ensures looked { Looked (B.life blob.old) (B.life blob.new) }
{
    match replays.get_mut(index) {
        Some(replay) => ensure_of(replay, blob, count),
        None => Reply::NoSuch,
    }
}

fn take_of<B, H>(alloc: Global, replay: &mut Option<Replay<B, H>>, count: usize) -> Reply
    ensures { OfReplay replay.old replay.new result ⊤ (λ r q.
        TakesOf r q count result × ReplaysOn r q) }
{
    let Some(replay) = replay else {
        return Reply::NoSuch;
    };
    let mut bytes = Vec::new(alloc);
    if bytes.resize(count.min(replay.remaining()), 0).is_err() {
        return Reply::Fault(Error::OutOfMemory);
    }
    match replay.try_copy_to_slice(&mut bytes) {
        Ok(()) => Reply::Bytes(bytes),
        Err(_) => unreachable!(),
    }
}

fn seek_of<B, H>(replay: &mut Option<Replay<B, H>>, offset: u64) -> Reply
    ensures { OfReplay replay.old replay.new result ⊤ (λ r q.
        SeeksOf r q offset result × ReplaysOn r q) }
{
    let Some(replay) = replay else {
        return Reply::NoSuch;
    };
    match replay.seek_to(offset) {
        Ok(()) => Reply::Done,
        Err(error) => Reply::Fault(error),
    }
}

fn ensure_of<B: Blob, H: Sum>(
    replay: &mut Option<Replay<B, H>>,
    blob: &mut B,
    count: usize,
) -> Reply
    requires can { ReplayCanGoOn replay.old (B.life blob.old).present }
    ensures goes { let old = B.life blob.old in let new = B.life blob.new in
        OfReplay replay.old replay.new result (new ≡ old) (λ r q.
        EnsureSays H.sum_of r q count old new result) }
    ensures looked { Looked (B.life blob.old) (B.life blob.new) }
{
    let Some(replay) = replay else {
        return Reply::NoSuch;
    };
    match replay.ensure(blob, count) {
        Ok(answer) => Reply::Answer(answer),
        Err(error) => Reply::Fault(error),
    }
}
