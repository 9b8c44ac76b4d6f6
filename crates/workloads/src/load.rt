// Loading in bulk: values of 4 KiB to 1 MiB, lent and owned, then a replay by either buffer, a
// snapshot and a seal.
ghost use Rattle.std.specs.Prelude.{IfOk, OnOk};
ghost use Rattle.cache.specs.Pages.{IsFresh};
ghost use Rattle.crash.specs.Looks.{Looked};
ghost use Rattle.paged_read.specs.Replay.{CanReplay};
ghost use Rattle.paged.specs.Ready.{IsReady};

use crate::digest::Digest;
use crate::random::Records;
use crate::stage::{Plan, Stage};
use anyhow::Result;
use cache::CacheRef;
use disk::{Blob, Error, IoBuf, ReadOptions};
use page::Sum;
use paged::{Replay, Writer, wait_sync};
use std::alloc::Global;
use std::num::NonZeroUsize;

/// The buffers of the two replays, in bytes.
const BUFFERS: [usize; 2] = [64 << 10, 1 << 20];

/// Plays the workload, and answers how many bytes were to be loaded. Each round loads its share or
/// some bytes more, up to the end of its last value.
pub fn play_loads<H: Sum>(alloc: Global, plan: &Plan, digest: &mut Digest) -> Result<u64> {
    let mut stage = Stage::new(alloc, plan, plan.pages() / 10)?;
    let mut records = Records::new(alloc, plan.seed, 3)?;
    let owned = IoBuf::copy_from_slice(alloc, records.pool())?;
    for _ in 0..plan.rounds {
        load_round::<H>(&mut stage, &mut records, &owned, plan.bytes, digest)?;
        digest.bytes(stage.blob.bytes());
    }
    Ok(plan.rounds.saturating_mul(plan.bytes))
}

// Loads an empty blob, goes through it, and seals it.
fn load_round<H: Sum>(
    stage: &mut Stage,
    records: &mut Records,
    owned: &IoBuf,
    bytes: u64,
    digest: &mut Digest,
) -> Result<(), Error>
    requires { IsFresh stage.old.cache }
    ensures { OnOk result (IsFresh stage.new.cache) }
{
    let writer = stage.restart::<H>()?;
    let (blob, cache) = (&mut stage.blob, &mut stage.cache);
    let writer = append_values(writer, blob, cache, records, bytes / 2, digest)?;
    let writer = append_owned_values(writer, blob, cache, records, owned, bytes, digest)?;
    let writer = replay_both(writer, blob, cache, digest)?;
    seal_all(writer, blob, cache, digest)
}

/// Appends values that are lent, until the content has so many bytes.
pub fn append_values<B: Blob, H: Sum>(
    mut writer: Writer<B, H>,
    blob: &mut B,
    cache: &mut CacheRef,
    records: &mut Records,
    bytes: u64,
    digest: &mut Digest,
) -> Result<Writer<B, H>, Error>
    requires { IsReady H.sum_of writer cache.old (B.life blob.old) }
    ensures { IfOk result (λ w. IsReady H.sum_of w cache.new (B.life blob.new)) }
{
    for _ in 0..bytes {
        if writer.size() >= bytes {
            break;
        }
        let len = records.random.value_len();
        let (next, offset) = writer.append(blob, cache, records.value(len))?;
        digest.number(offset);
        writer = next;
    }
    Ok(writer)
}

/// Appends values that are owned, until the content has so many bytes.
fn append_owned_values<B: Blob, H: Sum>(
    mut writer: Writer<B, H>,
    blob: &mut B,
    cache: &mut CacheRef,
    records: &mut Records,
    owned: &IoBuf,
    bytes: u64,
    digest: &mut Digest,
) -> Result<Writer<B, H>, Error>
    requires { IsReady H.sum_of writer cache.old (B.life blob.old) }
    ensures { IfOk result (λ w. IsReady H.sum_of w cache.new (B.life blob.new)) }
{
    for _ in 0..bytes {
        if writer.size() >= bytes {
            break;
        }
        let value = owned_value(records, owned)?;
        let (next, offset) = writer.append_owned(blob, cache, value)?;
        digest.number(offset);
        writer = next;
    }
    Ok(writer)
}

/// A part of a buffer, which isn't copied.
fn owned_value(records: &mut Records, owned: &IoBuf) -> Result<IoBuf, Error> {
    let len = records.random.value_len();
    let spare = owned.len().saturating_sub(len) as u64;
    let start = (records.random.below(spare) as usize).min(owned.len());
    let end = start.saturating_add(len).min(owned.len());
    owned.slice(start, end)
}

/// Replays all bytes with each buffer.
fn replay_both<B: Blob, H: Sum>(
    mut writer: Writer<B, H>,
    blob: &mut B,
    cache: &mut CacheRef,
    digest: &mut Digest,
) -> Result<Writer<B, H>, Error>
    requires { IsReady H.sum_of writer cache.old (B.life blob.old) }
    ensures { IfOk result (λ w. IsReady H.sum_of w cache.new (B.life blob.new)) }
{
    for buffer in BUFFERS {
        let buffer_size = NonZeroUsize::new(buffer).unwrap_or(NonZeroUsize::MIN);
        writer = replay_all(writer, blob, cache, buffer_size, digest)?;
    }
    Ok(writer)
}

/// Replays all bytes, in batches of a quarter of the pages that fit `buffer_size` bytes.
fn replay_all<B: Blob, H: Sum>(
    writer: Writer<B, H>,
    blob: &mut B,
    cache: &mut CacheRef,
    buffer_size: NonZeroUsize,
    digest: &mut Digest,
) -> Result<Writer<B, H>, Error>
    requires { IsReady H.sum_of writer cache.old (B.life blob.old) }
    ensures { IfOk result (λ w. IsReady H.sum_of w cache.new (B.life blob.new)) }
{
    let (writer, replay) = writer.replay(blob, cache, buffer_size, ReadOptions::default())?;
    pass_all(replay, blob, digest)?;
    Ok(writer)
}

/// Passes over all bytes, page by page.
fn pass_all<B: Blob, H: Sum>(
    mut replay: Replay<B, H>,
    blob: &mut B,
    digest: &mut Digest,
) -> Result<(), Error>
    requires { CanReplay replay (B.life blob.old).present }
    ensures { Looked (B.life blob.old) (B.life blob.new) }
{
    for _ in 0..replay.blob_size() {
        if !replay.ensure(blob, 1)? {
            break;
        }
        let chunk = replay.chunk();
        let count = chunk.len();
        digest.bytes(chunk);
        replay.advance(count);
    }
    Ok(())
}

/// Makes a snapshot, seals the writer, and waits for its sync.
fn seal_all<B: Blob, H: Sum>(
    writer: Writer<B, H>,
    blob: &mut B,
    cache: &mut CacheRef,
    digest: &mut Digest,
) -> Result<(), Error>
    requires { IsReady H.sum_of writer cache.old (B.life blob.old) }
    ensures { OnOk result (IsFresh cache.new) }
{
    let (writer, snapshot) = writer.snapshot(blob, cache)?;
    digest.number(snapshot.size());
    let (sealed, started) = writer.seal(blob, cache)?;
    digest.number(sealed.size());
    wait_sync::<B, H>(blob, started)?;
    Ok(())
}
