// What a client asks of a log.
use crate::log_input::{Unread, read_bytes, read_front, read_number, skip_bytes};
use journal::MOST_BYTES;
use protocol::{Flaw, Version};
use segments::Place;
use std::alloc::Global;
use std::io::BufRead;

/// What a client asks of a log.
#[derive(Clone, Copy)]
pub enum LogTask {
    /// To append the bytes of the request as a record.
    Append,
    /// To append a record that is longer than one may be.
    AppendTooLong,
    /// To append the records that the bytes of the request hold, and where `syncs`, to commit.
    Records { syncs: bool },
    /// To commit.
    Sync,
    /// To commit, and to answer how many records there are.
    SyncSize,
    /// To answer how many records there are.
    Size,
    /// The frame at a place.
    Read(Place),
    /// The next record from a place on.
    Next(Place),
    /// To drop the segments before this one.
    DropBefore(u64),
    /// Where the log begins and ends, and what its closed segments from `from` to before `to` have.
    Where { from: u64, to: u64 },
    /// The next records from a place on, as many as an answer of so many bytes holds.
    NextMany { place: Place, most: u64 },
    /// Where frame `n` of a segment begins.
    Nth { segment: u64, n: u64 },
    /// Where to go on behind the damaged page that a place is in.
    PassDamage(Place),
    /// To send all answers.
    Flush,
}

impl LogTask {
    /// Whether the task is refused where the log is served for reading alone.
    pub fn is_change(self) -> bool {
        match self {
            LogTask::Append
            | LogTask::AppendTooLong
            | LogTask::Records { .. }
            | LogTask::Sync
            | LogTask::SyncSize
            | LogTask::DropBefore(_) => true,
            LogTask::Size
            | LogTask::Read(_)
            | LogTask::Next(_)
            | LogTask::Where { .. }
            | LogTask::NextMany { .. }
            | LogTask::Nth { .. }
            | LogTask::PassDamage(_)
            | LogTask::Flush => false,
        }
    }
}

/// A request of a client.
#[derive(Drop)]
pub struct LogRequest {
    pub task: LogTask,
    /// What is to be appended. Empty for any other task.
    pub bytes: Vec<u8>,
}

/// Reads a request; none at the end of the input, or where the client closes.
pub fn read_request<R: BufRead>(
    alloc: Global,
    version: Version,
    input: &mut R,
) -> Result<Option<LogRequest>, Unread> {
    let mut head = [0u8; 4];
    let count = read_front(input, &mut head)?;
    if count == 0 {
        return Ok(None);
    }
    if count < 4 {
        return Err(Unread::Malformed(Flaw::Cut));
    }
    let Some(len) = u32::from_le_bytes(head).checked_sub(1) else {
        return Err(Unread::Malformed(Flaw::Empty));
    };
    let mut kind = [0u8; 1];
    if read_front(input, &mut kind)? == 0 {
        return Err(Unread::Malformed(Flaw::Cut));
    }
    let [kind] = kind;
    read_body(alloc, version, input, kind, len as usize)
}

// Reads what stands after the kind of a request: so many bytes. A wrong length is reported before
// these bytes are awaited.
fn read_body<R: BufRead>(
    alloc: Global,
    version: Version,
    input: &mut R,
    kind: u8,
    len: usize,
) -> Result<Option<LogRequest>, Unread> {
    if !is_known(version, kind) {
        return Err(Unread::Malformed(Flaw::Kind(kind)));
    }
    if has_bytes(kind) {
        return Ok(Some(read_of_bytes(alloc, input, kind, len)?));
    }
    if len != fields_len(kind) {
        return Err(Unread::Malformed(Flaw::Length));
    }
    let task = match kind {
        2 => LogTask::Sync,
        5 => LogTask::Size,
        6 => LogTask::Read(read_place(input)?),
        7 => LogTask::Next(read_place(input)?),
        21 => LogTask::SyncSize,
        25 => LogTask::Flush,
        27 => LogTask::DropBefore(read_number(input)?),
        28 => read_where(input)?,
        29 => read_next_many(input)?,
        30 => read_nth(input)?,
        31 => LogTask::PassDamage(read_place(input)?),
        _ => return Ok(None),
    };
    let bytes = Vec::new(alloc);
    Ok(Some(LogRequest { task, bytes }))
}

/// A request that has bytes, if its whole frame stands at the front of these bytes, and those that
/// it has. `None` for each other request, and for one that is refused for its length.
pub fn lent_request(version: Version, held: &[u8]) -> Option<(LogTask, &[u8])> {
    let (four, rest) = held.split_first_chunk::<4>()?;
    let len = (u32::from_le_bytes(*four) as usize).checked_sub(1)?;
    let (kind, rest) = rest.split_first()?;
    if !is_known(version, *kind) || !has_bytes(*kind) || is_too_long(*kind, len) {
        return None;
    }
    let (bytes, _) = rest.split_at_checked(len)?;
    Some((task_of_bytes(*kind), bytes))
}

/// The kinds of requests of version 2, as the hello lists them.
pub const KINDS: [u8; 15] = [1, 2, 5, 6, 7, 16, 17, 18, 21, 25, 27, 28, 29, 30, 31];

// Whether there is a kind of this number.
fn is_known(version: Version, kind: u8) -> bool {
    match kind {
        1 | 2 | 5 | 6 | 7 | 16 | 27 => true,
        17 | 18 | 21 | 25 | 28 | 29 | 30 | 31 => version == Version::Two,
        _ => false,
    }
}

// Whether a request of this kind has bytes in the place of fields, as many as its frame holds.
fn has_bytes(kind: u8) -> bool {
    matches!(kind, 1 | 17 | 18)
}

// Whether a record of so many bytes is longer than one may be.
fn is_too_long(kind: u8, len: usize) -> bool {
    kind == 1 && len > MOST_BYTES
}

// What is asked by a request of a kind that has bytes.
fn task_of_bytes(kind: u8) -> LogTask {
    match kind {
        1 => LogTask::Append,
        17 => LogTask::Records { syncs: false },
        _ => LogTask::Records { syncs: true },
    }
}

// How many bytes the fields of any other kind have.
fn fields_len(kind: u8) -> usize {
    match kind {
        6 | 7 | 28 | 30 | 31 => 16,
        27 => 8,
        29 => 24,
        _ => 0,
    }
}

// Reads a request that has so many bytes.
fn read_of_bytes<R: BufRead>(
    alloc: Global,
    input: &mut R,
    kind: u8,
    len: usize,
) -> Result<LogRequest, Unread> {
    if is_too_long(kind, len) {
        skip_bytes(input, len)?;
        let bytes = Vec::new(alloc);
        return Ok(LogRequest {
            task: LogTask::AppendTooLong,
            bytes,
        });
    }
    let bytes = read_bytes(alloc, input, len)?;
    Ok(LogRequest {
        task: task_of_bytes(kind),
        bytes,
    })
}

// Reads a place: the number of a segment, and an offset.
fn read_place<R: BufRead>(input: &mut R) -> Result<Place, Unread> {
    let segment = read_number(input)?;
    let offset = read_number(input)?;
    Ok(Place { segment, offset })
}

// Reads which segments are asked for.
fn read_where<R: BufRead>(input: &mut R) -> Result<LogTask, Unread> {
    let from = read_number(input)?;
    let to = read_number(input)?;
    Ok(LogTask::Where { from, to })
}

// Reads from where on records are asked for, and how many bytes of an answer.
fn read_next_many<R: BufRead>(input: &mut R) -> Result<LogTask, Unread> {
    let place = read_place(input)?;
    let most = read_number(input)?;
    Ok(LogTask::NextMany { place, most })
}

// Reads which frame is asked for.
fn read_nth<R: BufRead>(input: &mut R) -> Result<LogTask, Unread> {
    let segment = read_number(input)?;
    let n = read_number(input)?;
    Ok(LogTask::Nth { segment, n })
}
