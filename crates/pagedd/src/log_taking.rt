// Taking each request as a call of the log, and answering it.
ghost use Rattle.segments.specs.Log.{IsLog};

use crate::log_answer::{Refusal, write_answer, write_found, write_places, write_refusal};
use crate::log_records::{Records, length_of, split_record};
use crate::log_request::LogTask;
use crate::log_scan::{take_next_many, take_where};
use crate::log_seeking::{take_nth, take_pass_damage};
use crate::log_status::{AT_END, Failure, NO_RECORDS, READ_ONLY, is_failed_sync, refusal_of};
use digest::Digest;
use disk::Blob;
use journal::MOST_BYTES;
use page::Sum;
use protocol::{Cause, Stop, Version};
use segments::{Asked, Error, Folder, Place, SegmentedLog};
use std::alloc::Global;
use std::io::Write;
use std::num::NonZeroU16;

/// The client to whom a log is served, and how.
#[derive(Drop)]
pub struct Client {
    pub version: Version,
    pub read_only: bool,
    /// How many logical bytes a page of the log has.
    pub page_size: NonZeroU16,
    /// The first error that closed the log, if one did.
    pub lost: Option<Error>,
}

impl Client {
    /// Whether a failed sync closed the log, be it one of a file that the log let go of since.
    pub fn is_unsynced(&self) -> bool {
        match &self.lost {
            Some(error) => is_failed_sync(error),
            None => false,
        }
    }

    // How the files fared, also one that the log let go of since.
    fn with_lost<'a>(&self, failure: Failure<'a>) -> Failure<'a> {
        Failure {
            error: failure.error,
            sync_failed: failure.sync_failed || self.is_unsynced(),
        }
    }
}

/// Takes a request with these bytes, unless it is refused, and writes its answer.
pub fn take_request<F: Folder<B> + Drop, B: Blob + Cause + Drop, H: Sum, D: Digest, W: Write>(
    alloc: Global,
    client: &mut Client,
    log: &mut SegmentedLog<F, B, H, H, D>,
    task: LogTask,
    bytes: &[u8],
    out: &mut W,
) -> Result<(), Stop>
    requires log { IsLog H.sum_of H.sum_of log.old }
    ensures log { IsLog H.sum_of H.sum_of log.new }
{
    if client.read_only && task.is_change() {
        return refuse(alloc, client, out, READ_ONLY);
    }
    match task {
        LogTask::Append => take_append(alloc, client, log, bytes, out),
        LogTask::AppendTooLong => refuse(alloc, client, out, NO_RECORDS),
        LogTask::Records { syncs } => take_records(alloc, client, log, bytes, syncs, out),
        LogTask::Sync => take_sync(alloc, client, log, out, false),
        LogTask::SyncSize => take_sync(alloc, client, log, out, true),
        LogTask::Size => take_size(alloc, client, log, out),
        LogTask::Read(place) => take_read(alloc, client, log, place, out),
        LogTask::Next(place) => take_next(alloc, client, log, place, out),
        LogTask::DropBefore(segment) => take_drop(alloc, client, log, segment, out),
        LogTask::Where { from, to } => take_where(alloc, client, log, from, to, out),
        LogTask::NextMany { place, most } => {
            take_next_many(alloc, client, log, place, most, out)
        }
        LogTask::Nth { segment, n } => take_nth(alloc, client, log, segment, n, out),
        LogTask::PassDamage(place) => take_pass_damage(alloc, client, log, place, out),
        LogTask::Flush => write_flushed(out),
    }
}

/// Answers a request that can't be met as it stands.
pub fn refuse<W: Write>(
    alloc: Global,
    client: &Client,
    out: &mut W,
    status: u8,
) -> Result<(), Stop> {
    write_refusal(alloc, client.version, out, Refusal::plain(status))
}

/// Why a file of the log failed, if one did. The file of the open segment is asked first, then the
/// manifest.
pub fn failure_of<F: Folder<B> + Drop, B: Blob + Cause + Drop, H: Sum, D: Digest>(
    log: &SegmentedLog<F, B, H, H, D>,
) -> Failure<'_> {
    let error = match log.blob().cause() {
        Some(error) => Some(error),
        None => log.manifest_blob().cause(),
    };
    Failure {
        error,
        sync_failed: unsynced_of(log).is_some(),
    }
}

/// The file of the log of which a sync failed, if one did.
pub fn unsynced_of<F: Folder<B> + Drop, B: Blob + Cause + Drop, H: Sum, D: Digest>(
    log: &SegmentedLog<F, B, H, H, D>,
) -> Option<Asked> {
    if log.blob().failed_sync() {
        return Some(Asked::Segment(log.last_segment()));
    }
    if log.manifest_blob().failed_sync() {
        return Some(Asked::Manifest);
    }
    None
}

// Answers a request whose error closed the log after so many of its records were appended.
fn refuse_closed<W: Write>(
    alloc: Global,
    client: &mut Client,
    out: &mut W,
    error: Error,
    taken: u64,
    failure: Failure<'_>,
) -> Result<(), Stop> {
    let refusal = refusal_of(&error, true, taken, client.with_lost(failure));
    write_refusal(alloc, client.version, out, refusal)?;
    if client.lost.is_none() {
        client.lost = Some(error);
    }
    Ok(())
}

/// Answers a request after an error that left the log as it was: open, or closed by an error
/// before.
pub fn refuse_kept<W: Write>(
    alloc: Global,
    client: &Client,
    out: &mut W,
    error: &Error,
    failure: Failure<'_>,
) -> Result<(), Stop> {
    let is_closed = client.lost.is_some();
    let refusal = refusal_of(error, is_closed, 0, client.with_lost(failure));
    write_refusal(alloc, client.version, out, refusal)
}

/// Answers a request that can't be met since the log is closed.
pub fn refuse_lost<F: Folder<B> + Drop, B: Blob + Cause + Drop, H: Sum, D: Digest, W: Write>(
    alloc: Global,
    client: &Client,
    log: &SegmentedLog<F, B, H, H, D>,
    out: &mut W,
) -> Result<(), Stop> {
    refuse_kept(alloc, client, out, &Error::Closed, failure_of(log))
}

fn write_flushed<W: Write>(out: &mut W) -> Result<(), Stop> {
    write_answer(out, &[], &[])?;
    out.flush()?;
    Ok(())
}

fn take_append<F: Folder<B> + Drop, B: Blob + Cause + Drop, H: Sum, D: Digest, W: Write>(
    alloc: Global,
    client: &mut Client,
    log: &mut SegmentedLog<F, B, H, H, D>,
    bytes: &[u8],
    out: &mut W,
) -> Result<(), Stop>
    requires log { IsLog H.sum_of H.sum_of log.old }
    ensures log { IsLog H.sum_of H.sum_of log.new }
{
    if bytes.len() > MOST_BYTES {
        return refuse(alloc, client, out, NO_RECORDS);
    }
    match log.append(bytes) {
        Ok(place) => {
            digest_ahead::<F, B, H, D>(client, log, bytes.len());
            write_answer(out, &[place.segment, place.offset], &[])
        }
        Err(error) => refuse_closed(alloc, client, out, error, 0, failure_of(log)),
    }
}

// Digests pages of the open segment after so many bytes were appended, so that its rotation is
// short: twice as many pages as they filled, and one, so that it also catches up after an opening.
// An error here is none of the request's: the log is as it was, and the rotation reads the pages.
fn digest_ahead<F: Folder<B> + Drop, B: Blob + Cause + Drop, H: Sum, D: Digest>(
    client: &Client,
    log: &mut SegmentedLog<F, B, H, H, D>,
    appended: usize,
)
    requires log { IsLog H.sum_of H.sum_of log.old }
    ensures log { IsLog H.sum_of H.sum_of log.new }
{
    let filled = appended as u64 / client.page_size.get() as u64;
    let _ = log.digest_ahead(filled.saturating_mul(2).saturating_add(1));
}

// Appends records, and commits where `syncs` asks. Nothing is appended where the fields are no
// records.
fn take_records<F: Folder<B> + Drop, B: Blob + Cause + Drop, H: Sum, D: Digest, W: Write>(
    alloc: Global,
    client: &mut Client,
    log: &mut SegmentedLog<F, B, H, H, D>,
    fields: &[u8],
    syncs: bool,
    out: &mut W,
) -> Result<(), Stop>
    requires log { IsLog H.sum_of H.sum_of log.old }
    ensures log { IsLog H.sum_of H.sum_of log.new }
{
    let Some(records) = Records::of(fields) else {
        return refuse(alloc, client, out, NO_RECORDS);
    };
    if client.lost.is_some() {
        return refuse_lost(alloc, client, log, out);
    }
    let mut places = Vec::with_capacity(alloc, records.count())?;
    let appended = append_records::<F, B, H, D>(log, records, &mut places);
    let taken = places.len() as u64;
    let ended = match appended {
        Ok(()) if syncs => log.commit(),
        ended => ended,
    };
    match ended {
        Ok(()) => {
            digest_ahead::<F, B, H, D>(client, log, fields.len());
            write_places(out, places.as_slice())
        }
        Err(error) => refuse_closed(alloc, client, out, error, taken, failure_of(log)),
    }
}

// Appends records up to the first that is refused, and keeps the place of each.
fn append_records<F: Folder<B> + Drop, B: Blob + Cause + Drop, H: Sum, D: Digest>(
    log: &mut SegmentedLog<F, B, H, H, D>,
    records: Records<'_>,
    places: &mut Vec<Place>,
) -> Result<(), Error>
    requires log { IsLog H.sum_of H.sum_of log.old }
    ensures log { IsLog H.sum_of H.sum_of log.new }
{
    let mut rest = records.bytes;
    for length in records.lengths.chunks_exact(4) {
        let (record, others) = split_record(rest, length_of(length));
        let place = log.append(record)?;
        places.push(place)?;
        rest = others;
    }
    Ok(())
}

// Commits, and answers how many records there are where `counts` asks.
fn take_sync<F: Folder<B> + Drop, B: Blob + Cause + Drop, H: Sum, D: Digest, W: Write>(
    alloc: Global,
    client: &mut Client,
    log: &mut SegmentedLog<F, B, H, H, D>,
    out: &mut W,
    counts: bool,
) -> Result<(), Stop>
    requires log { IsLog H.sum_of H.sum_of log.old }
    ensures log { IsLog H.sum_of H.sum_of log.new }
{
    match log.commit() {
        Ok(()) if counts => write_answer(out, &[log.len().unwrap_or(u64::MAX)], &[]),
        Ok(()) => write_answer(out, &[], &[]),
        Err(error) => refuse_closed(alloc, client, out, error, 0, failure_of(log)),
    }
}

// Once the log is closed nobody knows how many of the last records it keeps.
fn take_size<F: Folder<B> + Drop, B: Blob + Cause + Drop, H: Sum, D: Digest, W: Write>(
    alloc: Global,
    client: &Client,
    log: &SegmentedLog<F, B, H, H, D>,
    out: &mut W,
) -> Result<(), Stop> {
    if client.lost.is_some() {
        return refuse_lost(alloc, client, log, out);
    }
    write_answer(out, &[log.len().unwrap_or(u64::MAX)], &[])
}

fn take_read<F: Folder<B> + Drop, B: Blob + Cause + Drop, H: Sum, D: Digest, W: Write>(
    alloc: Global,
    client: &Client,
    log: &mut SegmentedLog<F, B, H, H, D>,
    place: Place,
    out: &mut W,
) -> Result<(), Stop>
    requires log { IsLog H.sum_of H.sum_of log.old }
    ensures log { IsLog H.sum_of H.sum_of log.new }
{
    match log.read(place) {
        Ok(Some(found)) => match &found.bytes {
            Some(bytes) => write_found(out, found.end, Some(bytes.as_ref())),
            None => write_found(out, found.end, None),
        },
        Ok(None) => refuse(alloc, client, out, AT_END),
        Err(error) => refuse_kept(alloc, client, out, &error, failure_of(log)),
    }
}

/// The place itself; for 0, 0 the start of the log, also where segment 0 was dropped.
pub fn begun_at<F: Folder<B> + Drop, B: Blob + Drop, H: Sum, D: Digest>(
    log: &SegmentedLog<F, B, H, H, D>,
    place: Place,
) -> Place {
    if place.segment == 0 && place.offset == 0 {
        log.start()
    } else {
        place
    }
}

// Answers the next record from a place on.
fn take_next<F: Folder<B> + Drop, B: Blob + Cause + Drop, H: Sum, D: Digest, W: Write>(
    alloc: Global,
    client: &Client,
    log: &mut SegmentedLog<F, B, H, H, D>,
    place: Place,
    out: &mut W,
) -> Result<(), Stop>
    requires log { IsLog H.sum_of H.sum_of log.old }
    ensures log { IsLog H.sum_of H.sum_of log.new }
{
    let mut behind = begun_at(log, place);
    match log.next(&mut behind) {
        Ok(Some((at, bytes))) => {
            let numbers = [at.segment, at.offset, behind.segment, behind.offset];
            write_answer(out, &numbers, bytes.as_ref())
        }
        Ok(None) => refuse(alloc, client, out, AT_END),
        Err(error) => refuse_kept(alloc, client, out, &error, failure_of(log)),
    }
}

fn take_drop<F: Folder<B> + Drop, B: Blob + Cause + Drop, H: Sum, D: Digest, W: Write>(
    alloc: Global,
    client: &mut Client,
    log: &mut SegmentedLog<F, B, H, H, D>,
    segment: u64,
    out: &mut W,
) -> Result<(), Stop>
    requires log { IsLog H.sum_of H.sum_of log.old }
    ensures log { IsLog H.sum_of H.sum_of log.new }
{
    match log.drop_before(segment) {
        Ok(()) => write_answer(out, &[], &[]),
        Err(error) => {
            let failure = Failure {
                error: log.manifest_blob().cause(),
                sync_failed: unsynced_of(log).is_some(),
            };
            match error {
                Error::Layer(_) => refuse_closed(alloc, client, out, error, 0, failure),
                _ => refuse_kept(alloc, client, out, &error, failure),
            }
        }
    }
}
