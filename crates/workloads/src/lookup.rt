// Looking things up: a few hot places and most cold, in a blob ten times as large as the cache;
// what was just appended; and the records of a journal one after another.
ghost use Rattle.std.specs.Prelude.{◌≡◌, ◌*◌, length, IfOk, OnOk, true};
ghost use Rattle.std.specs.Int.NonZero.{non_zero_usize_get};
ghost use Rattle.cache.specs.Pages.{IsFresh};
ghost use Rattle.page.specs.Geometry.{AreInOrder};
ghost use Rattle.paged_read.specs.Batch.{ranges_of};
ghost use Rattle.journal.specs.Reader.{IsReader};
ghost use Rattle.paged.specs.Ready.{IsReady};

use crate::commit::{append_all, append_records};
use crate::digest::Digest;
use crate::load::append_values;
use crate::random::{Random, Records};
use crate::stage::{Plan, Stage};
use anyhow::Result;
use cache::CacheRef;
use disk::{Blob, Error};
use journal::{Journal, Reader};
use page::Sum;
use paged::Writer;
use std::alloc::Global;
use std::num::NonZeroUsize;

/// The bytes of a read.
const LEN: usize = 100;

/// How many offsets one call reads.
const MANY: u64 = 64;

/// Plays the workload, and answers how many places were read.
pub fn play_lookups<H: Sum>(alloc: Global, plan: &Plan, digest: &mut Digest) -> Result<u64> {
    let mut stage = Stage::new(alloc, plan, plan.pages() / 10)?;
    let mut records = Records::new(alloc, plan.seed, 4)?;
    let count = plan.bytes / 200;
    for _ in 0..plan.rounds {
        read_round::<H>(&mut stage, &mut records, plan, count, digest)?;
        follow_round::<H>(&mut stage, &mut records, count / 8, digest)?;
    }
    Ok(plan.rounds.saturating_mul(count))
}

// Fills an empty blob, and reads it: three quarters of the places by a call each, and the others
// many at a time. Then it reads what it appends.
fn read_round<H: Sum>(
    stage: &mut Stage,
    records: &mut Records,
    plan: &Plan,
    count: u64,
    digest: &mut Digest,
) -> Result<(), Error>
    requires { IsFresh stage.old.cache }
    ensures { OnOk result (IsFresh stage.new.cache) }
{
    let writer = stage.restart::<H>()?;
    let (blob, cache) = (&mut stage.blob, &mut stage.cache);
    let writer = append_values(writer, blob, cache, records, plan.bytes, digest)?;
    let random = &mut records.random;
    read_all(&writer, blob, cache, random, count / 4 * 3, digest)?;
    read_many_all(&writer, blob, cache, random, count / 4 / MANY, digest)?;
    append_and_read(writer, blob, cache, records, count / 16, digest)?;
    digest.bytes(blob.bytes());
    Ok(())
}

/// Reads `count` places, by a call each.
fn read_all<B: Blob, H: Sum>(
    writer: &Writer<B, H>,
    blob: &mut B,
    cache: &mut CacheRef,
    random: &mut Random,
    count: u64,
    digest: &mut Digest,
) -> Result<(), Error>
    requires { IsReady H.sum_of writer.now cache.old (B.life blob.old) }
    ensures { IsReady H.sum_of writer.now cache.new (B.life blob.new) }
{
    let mut buf = [0; LEN];
    let last = writer.size().saturating_sub(LEN as u64);
    for _ in 0..count {
        writer.read_into(blob, cache, &mut buf, random.hot(last))?;
        digest.bytes(&buf);
    }
    Ok(())
}

/// Appends `count` records, and reads the last bytes after each.
fn append_and_read<B: Blob, H: Sum>(
    mut writer: Writer<B, H>,
    blob: &mut B,
    cache: &mut CacheRef,
    records: &mut Records,
    count: u64,
    digest: &mut Digest,
) -> Result<Writer<B, H>, Error>
    requires { IsReady H.sum_of writer cache.old (B.life blob.old) }
    ensures { IfOk result (λ w. IsReady H.sum_of w cache.new (B.life blob.new)) }
{
    for _ in 0..count {
        writer = append_all(writer, blob, cache, records, 1, digest)?;
        read_last(&writer, blob, cache, digest)?;
    }
    Ok(writer)
}

/// Reads the last bytes of the content.
fn read_last<B: Blob, H: Sum>(
    writer: &Writer<B, H>,
    blob: &mut B,
    cache: &mut CacheRef,
    digest: &mut Digest,
) -> Result<(), Error>
    requires { IsReady H.sum_of writer.now cache.old (B.life blob.old) }
    ensures { IsReady H.sum_of writer.now cache.new (B.life blob.new) }
{
    let last = writer.size().saturating_sub(LEN as u64);
    let bufs = writer.read_at(blob, cache, last, LEN)?;
    for buf in bufs.as_slice() {
        digest.bytes(buf.as_ref());
    }
    Ok(())
}

/// Makes `calls` calls, each of which reads [`MANY`] places in order.
fn read_many_all<B: Blob, H: Sum>(
    writer: &Writer<B, H>,
    blob: &mut B,
    cache: &mut CacheRef,
    random: &mut Random,
    calls: u64,
    digest: &mut Digest,
) -> Result<(), Error>
    requires { IsReady H.sum_of writer.now cache.old (B.life blob.old) }
    ensures { IsReady H.sum_of writer.now cache.new (B.life blob.new) }
{
    let mut buf = [0; LEN * MANY as usize];
    for _ in 0..calls {
        let offsets = sorted_places(random, writer.size());
        read_places(writer, blob, cache, &mut buf, &offsets)?;
        digest.bytes(&buf);
    }
    Ok(())
}

/// Reads many places in one call. `OffsetOverflow` if the places overlap or aren't in order, or
/// don't fill the buffer.
fn read_places<B: Blob, H: Sum>(
    writer: &Writer<B, H>,
    blob: &mut B,
    cache: &mut CacheRef,
    buf: &mut [u8],
    offsets: &[u64],
) -> Result<(), Error>
    requires { IsReady H.sum_of writer.now cache.old (B.life blob.old) }
    ensures { IsReady H.sum_of writer.now cache.new (B.life blob.new) }
{
    let len = NonZeroUsize::new(LEN).unwrap_or(NonZeroUsize::MIN);
    let room = offsets
        .len()
        .checked_mul(len.get())
        .ok_or(Error::OffsetOverflow)?;
    if room != buf.len() || !are_in_order(offsets, len.get()) {
        return Err(Error::OffsetOverflow);
    }
    writer.read_many_into(blob, cache, buf, offsets, len)?;
    Ok(())
}

/// Places in order, one in each part of the content.
fn sorted_places(random: &mut Random, size: u64) -> [u64; MANY as usize] {
    let part = size / MANY;
    let mut begin = 0u64;
    let mut offsets = [0; MANY as usize];
    for offset in offsets.iter_mut() {
        let within = random.hot(part.saturating_sub(LEN as u64));
        *offset = begin.saturating_add(within);
        begin = begin.saturating_add(part);
    }
    offsets
}

/// Whether ranges of `len` bytes at these offsets are in order, without overlaps.
fn are_in_order(offsets: &[u64], len: usize) -> bool
    ensures { result ≡ true → AreInOrder (ranges_of len offsets.now) }
{
    let mut end = 0u64;
    for &offset in offsets {
        if offset < end {
            return false;
        }
        let Some(next) = offset.checked_add(len as u64) else {
            return false;
        };
        end = next;
    }
    true
}

// Appends records to the journal of an empty blob, and goes through them by a reader.
fn follow_round<H: Sum>(
    stage: &mut Stage,
    records: &mut Records,
    count: u64,
    digest: &mut Digest,
) -> Result<(), Error>
    requires { IsFresh stage.old.cache }
    ensures { OnOk result (IsFresh stage.new.cache) }
{
    let journal = stage.restart_journal::<H>()?;
    let (blob, cache) = (&mut stage.blob, &mut stage.cache);
    let journal = append_records(journal, blob, cache, records, count, digest)?;
    let (journal, mut reader) = journal.reader(blob, cache)?;
    go_through(&mut reader, blob, cache, count, digest)?;
    Ok(())
}

/// Reads `count` records by a reader. `BlobInsufficientLength` if the reader ends before the last
/// one.
fn go_through<B: Blob, H: Sum>(
    reader: &mut Reader<B, H, H>,
    blob: &mut B,
    cache: &mut CacheRef,
    count: u64,
    digest: &mut Digest,
) -> Result<(), Error>
    requires fresh { IsFresh cache.old }
    requires reader { IsReader H.sum_of reader.old cache.old (B.life blob.old) }
    ensures { OnOk result (IsFresh cache.new) }
{
    for _ in 0..count {
        match reader.next(blob, cache)? {
            Some(record) => digest.bytes(record.as_ref()),
            None => return Err(Error::BlobInsufficientLength),
        }
    }
    Ok(())
}
