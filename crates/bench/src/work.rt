// The loops that are timed.
ghost use Rattle.std.specs.Prelude.{IfOk};
ghost use Rattle.crash.specs.Looks.{Looked};
ghost use Rattle.paged_read.specs.Replay.{CanReplay};
ghost use Rattle.paged.specs.Ready.{IsReady};

use crate::reads::are_in_order;
use cache::CacheRef;
use disk::{Blob, Error, IoBuf, ReadOptions};
use page::Sum;
use paged::{Replay, Writer};
use std::num::NonZeroUsize;

/// Appends a record `count` times.
pub fn append_all<B: Blob, H: Sum>(
    mut writer: Writer<B, H>,
    blob: &mut B,
    cache: &mut CacheRef,
    record: &[u8],
    count: u64,
) -> Result<Writer<B, H>, Error>
    requires { IsReady H.sum_of writer cache.old (B.life blob.old) }
    ensures { IfOk result (λ writer. IsReady H.sum_of writer cache.new (B.life blob.new)) }
{
    for _ in 0..count {
        let (next, _) = writer.append(blob, cache, record)?;
        writer = next;
    }
    Ok(writer)
}

/// Appends a record `count` times. Each append is tried in the buffer first.
pub fn try_append_all<B: Blob, H: Sum>(
    mut writer: Writer<B, H>,
    blob: &mut B,
    cache: &mut CacheRef,
    record: &[u8],
    count: u64,
) -> Result<Writer<B, H>, Error>
    requires { IsReady H.sum_of writer cache.old (B.life blob.old) }
    ensures { IfOk result (λ writer. IsReady H.sum_of writer cache.new (B.life blob.new)) }
{
    for _ in 0..count {
        if writer.try_append(record)?.is_none() {
            let (next, _) = writer.append(blob, cache, record)?;
            writer = next;
        }
    }
    Ok(writer)
}

/// Syncs `syncs` times, each time after `each` appends of a record.
pub fn append_synced<B: Blob, H: Sum>(
    mut writer: Writer<B, H>,
    blob: &mut B,
    cache: &mut CacheRef,
    record: &[u8],
    syncs: u64,
    each: u64,
) -> Result<Writer<B, H>, Error>
    requires { IsReady H.sum_of writer cache.old (B.life blob.old) }
    ensures { IfOk result (λ writer. IsReady H.sum_of writer cache.new (B.life blob.new)) }
{
    for _ in 0..syncs {
        writer = append_all(writer, blob, cache, record, each)?;
        writer = writer.sync(blob, cache)?;
    }
    Ok(writer)
}

/// Appends a buffer `count` times, which is copied only where it must be.
pub fn append_owned_all<B: Blob, H: Sum>(
    mut writer: Writer<B, H>,
    blob: &mut B,
    cache: &mut CacheRef,
    record: &IoBuf,
    count: u64,
) -> Result<Writer<B, H>, Error>
    requires { IsReady H.sum_of writer cache.old (B.life blob.old) }
    ensures { IfOk result (λ writer. IsReady H.sum_of writer cache.new (B.life blob.new)) }
{
    for _ in 0..count {
        let (next, _) = writer.append_owned(blob, cache, record.slice(0, record.len())?)?;
        writer = next;
    }
    Ok(writer)
}

/// Starts a sync and waits for it `syncs` times, each time after `each` appends of a record.
pub fn append_started<B: Blob, H: Sum>(
    mut writer: Writer<B, H>,
    blob: &mut B,
    cache: &mut CacheRef,
    record: &[u8],
    syncs: u64,
    each: u64,
) -> Result<Writer<B, H>, Error>
    requires { IsReady H.sum_of writer cache.old (B.life blob.old) }
    ensures { IfOk result (λ writer. IsReady H.sum_of writer cache.new (B.life blob.new)) }
{
    for _ in 0..syncs {
        writer = append_all(writer, blob, cache, record, each)?;
        let (next, _) = writer.start_sync(blob, cache)?;
        writer = next.wait_for_sync(blob)?;
    }
    Ok(writer)
}

/// Reads `len` bytes at each of these offsets.
pub fn read_all<B: Blob, H: Sum>(
    writer: &Writer<B, H>,
    blob: &mut B,
    cache: &mut CacheRef,
    offsets: &[u64],
    len: usize,
) -> Result<(), Error>
    requires { IsReady H.sum_of writer.now cache.old (B.life blob.old) }
    ensures { IsReady H.sum_of writer.now cache.new (B.life blob.new) }
{
    for &offset in offsets {
        writer.read_at(blob, cache, offset, len)?;
    }
    Ok(())
}

/// Reads to a buffer at each of these offsets.
pub fn read_into_all<B: Blob, H: Sum>(
    writer: &Writer<B, H>,
    blob: &mut B,
    cache: &mut CacheRef,
    buf: &mut [u8],
    offsets: &[u64],
) -> Result<(), Error>
    requires { IsReady H.sum_of writer.now cache.old (B.life blob.old) }
    ensures { IsReady H.sum_of writer.now cache.new (B.life blob.new) }
{
    for &offset in offsets {
        writer.read_into(blob, cache, buf, offset)?;
    }
    Ok(())
}

/// Reads `len` bytes at each of these offsets to a buffer, all in one call, `count` times.
/// `OffsetOverflow` if the ranges overlap or aren't in order, or don't fill the buffer.
pub fn read_many_all<B: Blob, H: Sum>(
    writer: &Writer<B, H>,
    blob: &mut B,
    cache: &mut CacheRef,
    buf: &mut [u8],
    offsets: &[u64],
    len: NonZeroUsize,
    count: u64,
) -> Result<(), Error>
    requires { IsReady H.sum_of writer.now cache.old (B.life blob.old) }
    ensures { IsReady H.sum_of writer.now cache.new (B.life blob.new) }
{
    let room = offsets
        .len()
        .checked_mul(len.get())
        .ok_or(Error::OffsetOverflow)?;
    if room != buf.len() || !are_in_order(offsets, len.get()) {
        return Err(Error::OffsetOverflow);
    }
    for _ in 0..count {
        writer.read_many_into(blob, cache, buf, offsets, len)?;
    }
    Ok(())
}

/// Replays all bytes, in batches of a quarter of the pages that fit `buffer_size` bytes.
pub fn replay_all<B: Blob, H: Sum>(
    writer: Writer<B, H>,
    blob: &mut B,
    cache: &mut CacheRef,
    buffer_size: NonZeroUsize,
) -> Result<Writer<B, H>, Error>
    requires { IsReady H.sum_of writer cache.old (B.life blob.old) }
    ensures { IfOk result (λ writer. IsReady H.sum_of writer cache.new (B.life blob.new)) }
{
    let (writer, replay) = writer.replay(blob, cache, buffer_size, ReadOptions::default())?;
    pass_all(replay, blob)?;
    Ok(writer)
}

/// Passes over all bytes, page by page.
fn pass_all<B: Blob, H: Sum>(mut replay: Replay<B, H>, blob: &mut B) -> Result<(), Error>
    requires { CanReplay replay (B.life blob.old).present }
    ensures { Looked (B.life blob.old) (B.life blob.new) }
{
    for _ in 0..replay.blob_size() {
        if !replay.ensure(blob, 1)? {
            break;
        }
        let count = replay.chunk().len();
        replay.advance(count);
    }
    Ok(())
}

/// Computes the checksum of these bytes `count` times, and writes each over the first four bytes
/// before the next. Answers the last checksum.
pub fn checksum_all<H: Sum>(bytes: &mut [u8], count: u64) -> u32 {
    let mut last = 0;
    for _ in 0..count {
        last = H::sum(bytes);
        if let Some(front) = bytes.first_chunk_mut::<4>() {
            *front = last.to_be_bytes();
        }
    }
    last
}
