// The writer of a session, in one of its two phases.
ghost use Rattle.std.specs.Prelude.{◌≡◌, if◌then◌else◌, is_some, option_map, true, IfOk};
ghost use Rattle.cache.specs.Pages.{IsFresh};
ghost use Rattle.writer_state.specs.Sound.{IsSound};
ghost use Rattle.paged_read.specs.Tail.{CanRead};
ghost use Rattle.paged.specs.Caches.{tail_of};
ghost use Rattle.paged.specs.Ready.{IsReady};
ghost use Rattle.paged.specs.Reads.{size_of};
ghost use Rattle.session.specs.Calls.{AppendSays, DidAppend, DidNeeds, LeavesTaken, Sized};
ghost use Rattle.session.specs.Calls.{DidStartSync, DidSync, DidTruncate, TriedAppend, Waits};
ghost use Rattle.session.specs.Calls.{IsOfEither, TakenBy};
ghost use Rattle.cache.specs.CacheState.{CacheState};
ghost use Rattle.session.specs.Others.{WriterLeavesOthers};
ghost use Rattle.session.specs.Run.{FitsOn, FitsWriter, HasSoundWriter, KeepsCache};

use crate::names::Names;
use crate::steps::{Reply, Step};
use cache::CacheRef;
use disk::{Blob, Error, IoBuf, StartedSync};
use page::Sum;
use paged::{Recovering, Writer};
use std::alloc::Global;
use std::marker::Model;

/// A writer in this phase, or none.
pub(crate) struct Held<B, H, Phase> {
    pub(crate) alloc: Global,
    pub(crate) writer: Option<Writer<B, H, Phase>>,
}

// By hand, so that an owner lets one go by one call: of a derived drop, a proof follows each field
// at each exit.
impl<B, H, Phase> Drop for Held<B, H, Phase> {
    fn drop(self) {
        let Held {
            alloc: _,
            writer: _,
        } = self;
    }
}

impl<B, H, Phase> Model for Held<B, H, Phase> {
    ghost use Rattle.std.specs.Prelude.{Option};
    ghost use Rattle.writer_state.specs.WriterState.{WriterState};

    ghost Value = { Option WriterState };

    ghost view = { λ held. held.writer };
}

impl<B, H, Phase> Held<B, H, Phase> {
    pub(crate) fn none(alloc: Global) -> Self
        ensures { result ≡ None }
    {
        Held {
            alloc,
            writer: None,
        }
    }

    /// How many logical bytes the writer has; `None` where there is no writer.
    pub(crate) fn size(&self) -> Option<u64>
        ensures { result ≡ option_map size_of self.now }
    {
        Some(self.writer.as_ref()?.size())
    }

    /// This reply where there is a writer, and else `Closed`.
    pub(crate) fn reply(&self, reply: Reply) -> Reply
        ensures { result ≡ if is_some self.now then reply else Reply.Closed }
    {
        if self.writer.is_some() {
            reply
        } else {
            Reply::Closed
        }
    }

    fn length(&self) -> Reply
        ensures { Sized self.now result }
    {
        match self.size() {
            Some(size) => Reply::Length(size),
            None => Reply::Closed,
        }
    }

    fn needs_sync(&self) -> Reply
        ensures { DidNeeds self.now result }
    {
        match &self.writer {
            Some(writer) => Reply::Answer(writer.needs_sync()),
            None => Reply::Closed,
        }
    }
}

impl<B: Blob, H: Sum, Phase> Held<B, H, Phase> {
    /// Takes one of the steps that a writer takes in either phase. `names` are those of the syncs
    /// that the session started.
    pub(crate) fn step(
        &mut self,
        names: &mut Names,
        blob: &mut B,
        cache: &mut CacheRef,
        step: &Step,
    ) -> Reply
        requires either { IsOfEither step.now }
        requires sound { HasSoundWriter H.sum_of self.old (B.life blob.old).present }
        requires cached { FitsWriter self.old cache.old (B.life blob.old).present }
        requires fresh { IsFresh cache.old }
        ensures goes { let old = B.life blob.old in let new = B.life blob.new in
            TakenBy H.sum_of step.now self.old self.new names.old.items names.new.items cache.old
            cache.new old new result }
        ensures cached { FitsWriter self.new cache.new (B.life blob.new).present }
        ensures fresh_ids { IsFresh cache.old → IsFresh cache.new }
        ensures tails { let old = B.life blob.old in let new = B.life blob.new in
            LeavesTaken H.sum_of self.old self.new cache.old cache.new old new }
    {
        match step {
            Step::Append(bytes) => self.append(blob, cache, bytes),
            Step::Owned(bytes) => self.append_owned(blob, cache, bytes),
            Step::TryAppend(bytes) => self.try_append(bytes),
            Step::Sync => self.sync(blob, cache),
            Step::StartSync => self.start_sync(names, blob, cache),
            Step::Wait => self.wait_for_sync(blob),
            Step::Needs => self.needs_sync(),
            Step::Size => self.length(),
            Step::Read(offset, len) => self.read(blob, cache, *offset, *len),
            Step::ReadUpTo(offset, len) => self.read_up_to(blob, cache, *offset, *len),
            Step::TryRead(offset, len) => self.try_read(cache, *offset, *len),
            Step::ReadRanges(ranges) => self.read_ranges(blob, cache, ranges),
            Step::TryReadRanges(ranges) => self.try_read_ranges(cache, ranges),
            Step::Scan(proven, most, buffer_size) => self.scan(blob, *proven, *most, *buffer_size),
            _ => unreachable!(),
        }
    }

    pub(crate) fn append(&mut self, blob: &mut B, cache: &mut CacheRef, bytes: &[u8]) -> Reply
        requires sound { HasSoundWriter H.sum_of self.old (B.life blob.old).present }
        requires cached { FitsWriter self.old cache.old (B.life blob.old).present }
        requires fresh { IsFresh cache.old }
        ensures goes { let old = B.life blob.old in let new = B.life blob.new in
            DidAppend H.sum_of self.old self.new bytes.now cache.old cache.new old new result }
        ensures cached { FitsWriter self.new cache.new (B.life blob.new).present }
        ensures fresh_ids { IsFresh cache.old → IsFresh cache.new }
        ensures tails { let old = B.life blob.old in let new = B.life blob.new in
            LeavesTaken H.sum_of self.old self.new cache.old cache.new old new }
    {
        let Some(writer) = &mut self.writer else {
            return Reply::Closed;
        };
        match writer.append_lent(blob, cache, bytes) {
            Ok(at) => Reply::At(at),
            Err(error) => {
                self.writer = None;
                Reply::Fault(error)
            }
        }
    }

    fn append_owned(&mut self, blob: &mut B, cache: &mut CacheRef, bytes: &[u8]) -> Reply
        requires sound { HasSoundWriter H.sum_of self.old (B.life blob.old).present }
        requires cached { FitsWriter self.old cache.old (B.life blob.old).present }
        requires fresh { IsFresh cache.old }
        ensures goes { let old = B.life blob.old in let new = B.life blob.new in
            DidAppend H.sum_of self.old self.new bytes.now cache.old cache.new old new result }
        ensures cached { FitsWriter self.new cache.new (B.life blob.new).present }
        ensures fresh_ids { IsFresh cache.old → IsFresh cache.new }
        ensures tails { let old = B.life blob.old in let new = B.life blob.new in
            LeavesTaken H.sum_of self.old self.new cache.old cache.new old new }
    {
        let Some(writer) = self.writer.take() else {
            return Reply::Closed;
        };
        match append_copy(self.alloc, writer, blob, cache, bytes) {
            Ok((writer, offset)) => {
                self.writer = Some(writer);
                Reply::At(offset)
            }
            Err(error) => Reply::Fault(error),
        }
    }

    fn try_append(&mut self, bytes: &[u8]) -> Reply
        ensures goes { TriedAppend H.sum_of self.old self.new bytes.now result }
        ensures cached { KeepsCache self.old self.new }
    {
        let Some(writer) = &mut self.writer else {
            return Reply::Closed;
        };
        match writer.try_append(bytes) {
            Ok(Some(offset)) => Reply::At(offset),
            Ok(None) => Reply::Nothing,
            Err(error) => Reply::Fault(error),
        }
    }

    fn sync(&mut self, blob: &mut B, cache: &mut CacheRef) -> Reply
        requires sound { HasSoundWriter H.sum_of self.old (B.life blob.old).present }
        requires cached { FitsWriter self.old cache.old (B.life blob.old).present }
        requires fresh { IsFresh cache.old }
        ensures goes { let old = B.life blob.old in let new = B.life blob.new in
            DidSync H.sum_of self.old self.new cache.old cache.new old new result }
        ensures cached { FitsWriter self.new cache.new (B.life blob.new).present }
        ensures fresh_ids { IsFresh cache.old → IsFresh cache.new }
        ensures tails { let old = B.life blob.old in let new = B.life blob.new in
            LeavesTaken H.sum_of self.old self.new cache.old cache.new old new }
    {
        let Some(writer) = self.writer.take() else {
            return Reply::Closed;
        };
        match writer.sync(blob, cache) {
            Ok(writer) => {
                self.writer = Some(writer);
                Reply::Done
            }
            Err(error) => Reply::Fault(error),
        }
    }

    // Room for the name is made first. If it is refused, no sync is started and the writer stays.
    fn start_sync(&mut self, names: &mut Names, blob: &mut B, cache: &mut CacheRef) -> Reply
        requires sound { HasSoundWriter H.sum_of self.old (B.life blob.old).present }
        requires cached { FitsWriter self.old cache.old (B.life blob.old).present }
        requires fresh { IsFresh cache.old }
        ensures goes { let old = B.life blob.old in let new = B.life blob.new in
            DidStartSync H.sum_of self.old self.new names.old.items names.new.items cache.old
            cache.new
            old new result }
        ensures cached { FitsWriter self.new cache.new (B.life blob.new).present }
        ensures fresh_ids { IsFresh cache.old → IsFresh cache.new }
        ensures tails { let old = B.life blob.old in let new = B.life blob.new in
            LeavesTaken H.sum_of self.old self.new cache.old cache.new old new }
    {
        let Some(writer) = self.writer.take() else {
            return Reply::Closed;
        };
        if names.make_room().is_err() {
            self.writer = Some(writer);
            return Reply::Fault(Error::OutOfMemory);
        }
        match writer.start_sync(blob, cache) {
            Ok((writer, started)) => {
                self.writer = Some(writer);
                if let StartedSync::Named(name) = started {
                    names.add(name);
                }
                Reply::Started(started)
            }
            Err(error) => Reply::Fault(error),
        }
    }

    fn wait_for_sync(&mut self, blob: &mut B) -> Reply
        requires sound { HasSoundWriter H.sum_of self.old (B.life blob.old).present }
        ensures goes { let old = B.life blob.old in let new = B.life blob.new in
            Waits H.sum_of self.old self.new old new result }
        ensures cached { let old = B.life blob.old in let new = B.life blob.new in
            FitsOn self.old self.new old.present new.present }
        ensures tails { let old = B.life blob.old in let new = B.life blob.new in
            (cache : CacheState) → FitsWriter self.old cache old.present
            → LeavesTaken H.sum_of self.old self.new cache cache old new }
    {
        let Some(writer) = self.writer.take() else {
            return Reply::Closed;
        };
        match writer.wait_for_sync(blob) {
            Ok(writer) => {
                self.writer = Some(writer);
                Reply::Done
            }
            Err(error) => Reply::Fault(error),
        }
    }
}

impl<B: Blob, H: Sum> Held<B, H, Recovering> {
    pub(crate) fn truncate(&mut self, blob: &mut B, cache: &mut CacheRef, size: u64) -> Reply
        requires sound { HasSoundWriter H.sum_of self.old (B.life blob.old).present }
        requires cached { FitsWriter self.old cache.old (B.life blob.old).present }
        ensures goes { let old = B.life blob.old in let new = B.life blob.new in
            DidTruncate H.sum_of true self.old self.new size cache.old cache.new old new result }
        ensures cached { FitsWriter self.new cache.new (B.life blob.new).present }
        ensures fresh_ids { IsFresh cache.old → IsFresh cache.new }
        ensures others { WriterLeavesOthers self.old self.new cache.old cache.new }
    {
        let Some(writer) = self.writer.take() else {
            return Reply::Closed;
        };
        match writer.truncate(blob, cache, size) {
            Ok(writer) => {
                let size = writer.size();
                self.writer = Some(writer);
                Reply::Length(size)
            }
            Err(error) => Reply::Fault(error),
        }
    }
}

/// Copies these bytes into a buffer and appends that. If there is no memory for the buffer, it
/// appends the bytes themselves, so that `OffsetOverflow` comes before `OutOfMemory`.
fn append_copy<B: Blob, H: Sum, Phase>(
    alloc: Global,
    writer: Writer<B, H, Phase>,
    blob: &mut B,
    cache: &mut CacheRef,
    bytes: &[u8],
) -> Result<(Writer<B, H, Phase>, u64), Error>
    requires sound { IsSound H.sum_of writer (B.life blob.old).present }
    requires can { CanRead (tail_of writer) cache.old (B.life blob.old).present }
    requires fresh { IsFresh cache.old }
    ensures says { let old = B.life blob.old in let new = B.life blob.new in
        AppendSays H.sum_of writer bytes.now cache.old cache.new old new result }
    ensures ready { IfOk result (λ r. IsReady H.sum_of r.0 cache.new (B.life blob.new)) }
{
    match IoBuf::copy_from_slice(alloc, bytes) {
        Ok(bytes) => writer.append_owned(blob, cache, bytes),
        Err(_) => writer.append(blob, cache, bytes),
    }
}
