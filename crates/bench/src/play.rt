// Playing a workload.
ghost use Rattle.std.specs.Prelude.{◌≡◌, IfOk};
ghost use Rattle.std.specs.Vec.{vec_len};
ghost use Rattle.cache.specs.Pages.{IsFresh};
ghost use Rattle.disk.specs.History.{life_of};
ghost use Rattle.paged.specs.Ready.{IsReady};

use crate::done::{Done, Start};
use crate::reads::Reads;
use crate::stage::{Device, Stage};
use crate::work::{
    append_all, append_owned_all, append_started, append_synced, checksum_all, read_all,
    read_into_all, read_many_all, replay_all, try_append_all,
};
use crate::workload::{Work, Workload};
use anyhow::Result;
use disk::{Error, IoBuf};
use page::Sum;
use paged::Writer;
use std::alloc::Global;
use std::num::NonZeroUsize;

/// Plays so many rounds of a workload.
pub fn play<H: Sum>(rt: &HostRuntime, workload: &Workload, rounds: u64) -> Result<Done> {
    let mut done = Done::default();
    match workload.work {
        Work::Append(_)
        | Work::TryAppend(_)
        | Work::AppendOwned(_)
        | Work::AppendSynced(..)
        | Work::AppendStarted(..) => {
            play_appends::<H>(rt, workload, rounds, &mut done)?;
        }
        Work::ReadTip(_)
        | Work::ReadBelow(_)
        | Work::ReadRandom(..)
        | Work::ReadMany(..)
        | Work::ReadThrough(_) => play_reads::<H>(rt, workload, rounds, &mut done)?,
        Work::Recover(_, buffer) => play_recoveries::<H>(rt, workload, buffer, rounds, &mut done)?,
        Work::Replay(_, buffer) => play_replays::<H>(rt, workload, buffer, rounds, &mut done)?,
        Work::Checksum => play_checksums::<H>(rt, workload, rounds, &mut done)?,
    }
    done.operations = rounds.saturating_mul(workload.count);
    done.bytes = done.operations.saturating_mul(workload.bytes() as u64);
    Ok(done)
}

/// A record of so many bytes.
pub fn record(alloc: Global, len: usize) -> Result<Vec<u8>>
    ensures { IfOk result (λ bytes. vec_len bytes ≡ len) }
{
    let mut record = Vec::with_capacity(alloc, len)?;
    record.resize(len, 0x5A)?;
    Ok(record)
}

fn play_appends<H: Sum>(
    rt: &HostRuntime,
    workload: &Workload,
    rounds: u64,
    done: &mut Done,
) -> Result<()> {
    let count = workload.count;
    let record = record(rt.alloc(), workload.bytes())?;
    let owned = IoBuf::copy_from_slice(rt.alloc(), &record)?;
    let mut stage = Stage::new(rt.alloc(), count.saturating_mul(record.len() as u64), false)?;
    for _ in 0..rounds {
        let writer = stage.restart::<H>()?;
        let start = Start::now(rt, &stage.blob)?;
        append_round(writer, &mut *stage, workload, &record, &owned)?;
        start.end(rt, &stage.blob, done)?;
    }
    Ok(())
}

fn append_round<H: Sum>(
    writer: Writer<Device, H>,
    stage: &mut Stage,
    workload: &Workload,
    record: &[u8],
    owned: &IoBuf,
) -> Result<Writer<Device, H>, Error>
    requires { IsReady H.sum_of writer stage.old.cache (life_of stage.old.blob.inner.history) }
    ensures { IfOk result (λ writer.
        IsReady H.sum_of writer stage.new.cache (life_of stage.new.blob.inner.history)) }
{
    let count = workload.count;
    let (blob, cache) = (&mut stage.blob, &mut stage.cache);
    match workload.work {
        Work::TryAppend(_) => try_append_all(writer, blob, cache, record, count),
        Work::AppendOwned(_) => append_owned_all(writer, blob, cache, owned, count),
        Work::AppendSynced(_, each) => {
            append_synced(writer, blob, cache, record, count / each.max(1), each)
        }
        Work::AppendStarted(_, each) => {
            append_started(writer, blob, cache, record, count / each.max(1), each)
        }
        _ => append_all(writer, blob, cache, record, count),
    }
}

/// Empties the stage's blob, appends a record so many times, syncs if that is asked for, and
/// answers the writer.
fn filled<H: Sum>(
    stage: &mut Stage,
    record: &[u8],
    appends: u64,
    synced: bool,
) -> Result<Writer<Device, H>, Error>
    requires { IsFresh stage.old.cache }
    ensures { IfOk result (λ writer.
        IsReady H.sum_of writer stage.new.cache (life_of stage.new.blob.inner.history)) }
{
    let writer = stage.restart::<H>()?;
    let (blob, cache) = (&mut stage.blob, &mut stage.cache);
    let writer = append_all(writer, blob, cache, record, appends)?;
    if synced {
        writer.sync(blob, cache)
    } else {
        Ok(writer)
    }
}

/// Plays reads of a blob that was filled by appends as long as a read. If the reads are of written
/// pages, the blob is synced first.
fn play_reads<H: Sum>(
    rt: &HostRuntime,
    workload: &Workload,
    rounds: u64,
    done: &mut Done,
) -> Result<()> {
    let reads = Reads::of(rt.alloc(), workload)?;
    let record = record(rt.alloc(), workload.bytes())?;
    let mut stage = Stage::new(rt.alloc(), reads.size, reads.cached)?;
    let appends = reads.size.div_ceil(record.len().max(1) as u64);
    let writer = filled::<H>(&mut *stage, &record, appends, reads.synced)?;
    read_rounds(
        rt,
        &mut *stage,
        &writer,
        workload,
        &reads.offsets,
        rounds,
        done,
    )
}

fn read_rounds<H: Sum>(
    rt: &HostRuntime,
    stage: &mut Stage,
    writer: &Writer<Device, H>,
    workload: &Workload,
    offsets: &[u64],
    rounds: u64,
    done: &mut Done,
) -> Result<()>
    requires { IsReady H.sum_of writer.now stage.old.cache (life_of stage.old.blob.inner.history) }
{
    let mut buf = record(rt.alloc(), workload.bytes())?;
    for _ in 0..rounds {
        let start = Start::now(rt, &stage.blob)?;
        read_round(writer, stage, workload, &mut buf, offsets)?;
        start.end(rt, &stage.blob, done)?;
    }
    Ok(())
}

fn read_round<H: Sum>(
    writer: &Writer<Device, H>,
    stage: &mut Stage,
    workload: &Workload,
    buf: &mut [u8],
    offsets: &[u64],
) -> Result<(), Error>
    requires { IsReady H.sum_of writer.now stage.old.cache (life_of stage.old.blob.inner.history) }
    ensures { IsReady H.sum_of writer.now stage.new.cache (life_of stage.new.blob.inner.history) }
{
    let (blob, cache) = (&mut stage.blob, &mut stage.cache);
    match workload.work {
        Work::ReadTip(len) | Work::ReadBelow(len) => read_all(writer, blob, cache, offsets, len),
        Work::ReadMany(len, _) => {
            let len = NonZeroUsize::new(len).unwrap_or(NonZeroUsize::MIN);
            read_many_all(writer, blob, cache, buf, offsets, len, workload.count)
        }
        _ => read_into_all(writer, blob, cache, buf, offsets),
    }
}

fn play_recoveries<H: Sum>(
    rt: &HostRuntime,
    workload: &Workload,
    buffer: usize,
    rounds: u64,
    done: &mut Done,
) -> Result<()> {
    let mut stage = Stage::new(rt.alloc(), workload.bytes() as u64, false)?;
    let record = record(rt.alloc(), workload.bytes())?;
    filled::<H>(&mut *stage, &record, 1, true)?;
    let buffer_size = NonZeroUsize::new(buffer).unwrap_or(NonZeroUsize::MIN);
    for _ in 0..rounds {
        let start = Start::now(rt, &stage.blob)?;
        let _ = stage.recover::<H>(buffer_size)?;
        start.end(rt, &stage.blob, done)?;
    }
    Ok(())
}

fn play_replays<H: Sum>(
    rt: &HostRuntime,
    workload: &Workload,
    buffer: usize,
    rounds: u64,
    done: &mut Done,
) -> Result<()> {
    let mut stage = Stage::new(rt.alloc(), workload.bytes() as u64, false)?;
    let stage = &mut *stage;
    let record = record(rt.alloc(), workload.bytes())?;
    let mut writer = filled::<H>(stage, &record, 1, true)?;
    let buffer_size = NonZeroUsize::new(buffer).unwrap_or(NonZeroUsize::MIN);
    for _ in 0..rounds {
        let start = Start::now(rt, &stage.blob)?;
        writer = replay_all(writer, &mut stage.blob, &mut stage.cache, buffer_size)?;
        start.end(rt, &stage.blob, done)?;
    }
    Ok(())
}

fn play_checksums<H: Sum>(
    rt: &HostRuntime,
    workload: &Workload,
    rounds: u64,
    done: &mut Done,
) -> Result<()> {
    let stage = Stage::new(rt.alloc(), 0, false)?;
    let mut page = record(rt.alloc(), workload.bytes())?;
    for _ in 0..rounds {
        let start = Start::now(rt, &stage.blob)?;
        done.last = Some(checksum_all::<H>(&mut page, workload.count));
        start.end(rt, &stage.blob, done)?;
    }
    Ok(())
}
