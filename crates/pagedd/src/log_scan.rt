// Answering where a log begins and ends, and the next records from a place on.
ghost use Rattle.segments.specs.Log.{IsLog};

use crate::log_answer::{MOST_PAYLOAD, write_head, write_numbers};
use crate::log_status::AT_END;
use crate::log_taking::{Client, begun_at, failure_of, refuse, refuse_kept, refuse_lost};
use digest::Digest;
use disk::Blob;
use page::Sum;
use protocol::{Cause, Stop};
use segments::{Closed, Error, Fingerprint, Folder, Place, SegmentedLog};
use std::alloc::{AllocError, Global};
use std::io::Write;

/// How many bytes the answer to where has in front of the closed segments, and for each of them.
const WHERE_HEAD: u64 = 48;

const WHERE_EACH: u64 = 17;

/// The most segments that an answer holds.
const MOST_SEGMENTS: u64 = (MOST_PAYLOAD - WHERE_HEAD) / WHERE_EACH;

/// How many bytes an answer with many records has in front of them, and for each besides its own.
const MANY_HEAD: usize = 24;

const MANY_EACH: usize = 20;

/// The most bytes that the records of an answer have, with twenty for each, however many are asked
/// for: they stand in memory at once.
const MOST_MANY: u64 = 1 << 24;

/// The most bytes that are set aside for the records of an answer before they are found.
const MOST_AHEAD: u64 = 1 << 20;

/// Records that were found, as an answer has them: copied one behind the other, so that the memory
/// of each is free for the next one.
#[derive(Drop)]
struct Scanned {
    count: u64,
    // The place and the length of each.
    heads: Vec<u8>,
    bytes: Vec<u8>,
}

impl Scanned {
    // None yet. So many bytes are asked for.
    fn new(alloc: Global, most: u64) -> Result<Self, AllocError> {
        Ok(Scanned {
            count: 0,
            heads: Vec::new(alloc),
            bytes: Vec::with_capacity(alloc, most.min(MOST_AHEAD) as usize)?,
        })
    }

    fn push(&mut self, place: Place, bytes: &[u8]) -> Result<(), AllocError> {
        let length = u32::try_from(bytes.len()).unwrap_or(u32::MAX);
        self.heads.extend_from_slice(&place.segment.to_le_bytes())?;
        self.heads.extend_from_slice(&place.offset.to_le_bytes())?;
        self.heads.extend_from_slice(&length.to_le_bytes())?;
        self.bytes.extend_from_slice(bytes)?;
        self.count = self.count.saturating_add(1);
        Ok(())
    }
}

/// Answers where the log begins and ends, and what was kept of its closed segments from `from` to
/// before `to`, as many as an answer holds.
pub fn take_where<F: Folder<B> + Drop, B: Blob + Cause + Drop, H: Sum, D: Digest, W: Write>(
    alloc: Global,
    client: &Client,
    log: &SegmentedLog<F, B, H, H, D>,
    from: u64,
    to: u64,
    out: &mut W,
) -> Result<(), Stop> {
    if client.lost.is_some() {
        return refuse_lost(alloc, client, log, out);
    }
    let (first, last) = (log.first_segment(), log.last_segment());
    let start = from.max(first).min(last);
    let count = to.min(last).saturating_sub(start).min(MOST_SEGMENTS);
    let len = count.saturating_mul(WHERE_EACH).saturating_add(WHERE_HEAD);
    write_head(out, 0, len as usize)?;
    write_numbers(out, &[first, last, log.size(), log.records(), start, count])?;
    for number in start..start.saturating_add(count) {
        write_closed(out, log.closed(number))?;
    }
    Ok(())
}

// Writes how many records a closed segment has, how many bytes, and whether these are the bytes of
// its file, as a version before 0.11 kept them, in place of those of its content.
fn write_closed<W: Write>(out: &mut W, closed: Option<Closed>) -> Result<(), Stop> {
    let (records, bytes, is_of_file) = match closed {
        Some(closed) => match &closed.fingerprint {
            Fingerprint::Whole(kept) => (closed.records, kept.len, true),
            Fingerprint::Paged(kept) => (closed.records, kept.seal.len, false),
        },
        None => (0, 0, false),
    };
    write_numbers(out, &[records, bytes])?;
    out.write_all(&[u8::from(is_of_file)])?;
    Ok(())
}

/// Answers the next records from a place on, as many as fit `most` bytes with twenty more for each,
/// and at least one.
pub fn take_next_many<F: Folder<B> + Drop, B: Blob + Cause + Drop, H: Sum, D: Digest, W: Write>(
    alloc: Global,
    client: &Client,
    log: &mut SegmentedLog<F, B, H, H, D>,
    place: Place,
    most: u64,
    out: &mut W,
) -> Result<(), Stop>
    requires log { IsLog H.sum_of H.sum_of log.old }
    ensures log { IsLog H.sum_of H.sum_of log.new }
{
    let mut behind = begun_at(log, place);
    match next_many(alloc, log, &mut behind, most.min(MOST_MANY)) {
        Ok(found) if found.count == 0 => refuse(alloc, client, out, AT_END),
        Ok(found) => write_many(out, behind, &found),
        Err(error) => refuse_kept(alloc, client, out, &error, failure_of(log)),
    }
}

// The next records from a place on, as many as fit `most` bytes with twenty more for each, and at
// least one, however long it is. The place moves behind the last one. None at the end of the log.
// An error behind a record is left to the next call.
fn next_many<F: Folder<B> + Drop, B: Blob + Drop, H: Sum, D: Digest>(
    alloc: Global,
    log: &mut SegmentedLog<F, B, H, H, D>,
    place: &mut Place,
    most: u64,
) -> Result<Scanned, Error>
    requires log { IsLog H.sum_of H.sum_of log.old }
    ensures log { IsLog H.sum_of H.sum_of log.new }
{
    let mut found = Scanned::new(alloc, most)?;
    let mut left = most as usize;
    for _ in 0..u64::MAX {
        if !take_one(log, place, &mut left, &mut found)? {
            break;
        }
    }
    Ok(found)
}

// Takes the next record, unless others were taken and it doesn't fit the bytes that are left, and
// moves the place behind it. Answers whether it was taken.
fn take_one<F: Folder<B> + Drop, B: Blob + Drop, H: Sum, D: Digest>(
    log: &mut SegmentedLog<F, B, H, H, D>,
    place: &mut Place,
    left: &mut usize,
    found: &mut Scanned,
) -> Result<bool, Error>
    requires log { IsLog H.sum_of H.sum_of log.old }
    ensures log { IsLog H.sum_of H.sum_of log.new }
{
    let mut behind = *place;
    let (at, bytes) = match log.next(&mut behind) {
        Ok(Some(next)) => next,
        Err(error) if found.count == 0 => return Err(error),
        Ok(None) | Err(_) => return Ok(false),
    };
    let taken = bytes.len().saturating_add(MANY_EACH);
    if taken > *left && found.count > 0 {
        return Ok(false);
    }
    found.push(at, bytes.as_ref())?;
    *left = left.saturating_sub(taken);
    *place = behind;
    Ok(true)
}

// Writes the place behind the last of these records, how many they are, the place and the length of
// each, and their bytes.
fn write_many<W: Write>(out: &mut W, behind: Place, found: &Scanned) -> Result<(), Stop> {
    let len = found.heads.len().saturating_add(found.bytes.len());
    write_head(out, 0, len.saturating_add(MANY_HEAD))?;
    write_numbers(out, &[behind.segment, behind.offset, found.count])?;
    out.write_all(&found.heads)?;
    out.write_all(&found.bytes)?;
    Ok(())
}
