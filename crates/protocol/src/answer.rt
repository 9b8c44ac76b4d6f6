// Answers: how the reply to a step is written.
ghost use Rattle.std.specs.Prelude.{◌∷◌, ◌++◌};
ghost use Rattle.std.specs.List.{flat_map};
ghost use Rattle.protocol.specs.Answer.{answer_bytes, refusal_bytes, started_bytes, PutsAnswer};
ghost use Rattle.protocol.specs.Answer.{PutsHead};
ghost use Rattle.protocol.specs.Request.{frame_bytes, number_bytes};

use crate::output::put;
use crate::refusal::{READ_ONLY, told_status};
use crate::request::MOST_BYTES;
use crate::stop::Stop;
use disk::StartedSync;
use session::Reply;
use std::io::Write;

/// Writes the answer to a step with this reply. `sync_failed` says whether a sync of the file has
/// failed.
#[tactic(auto, unfolding(crate::specs::Request::number_bytes))]
pub fn write_answer<W: Write>(out: &mut W, reply: &Reply, sync_failed: bool) -> Result<(), Stop>
    ensures { PutsAnswer (answer_bytes reply.now sync_failed) (W.contents out.old) (W.contents out.new)
        result }
{
    match reply {
        Reply::At(number) | Reply::Length(number) => write_number(out, *number),
        Reply::Taken(index) | Reply::Replaying(index) => write_number(out, *index as u64),
        Reply::Done => write_frame(out, 0, &[], &[]),
        Reply::Started(started) => write_started(out, &[], *started),
        Reply::Answer(answer) => write_frame(out, 0, &[u8::from(*answer)], &[]),
        Reply::Bytes(bytes) => write_frame(out, 0, &[], bytes),
        Reply::Served(count, bytes) => write_frame(out, 0, &(*count as u64).to_le_bytes(), bytes),
        Reply::Missed(numbers) => write_numbers(out, numbers),
        Reply::Sealed(index, started) => {
            write_started(out, &(*index as u64).to_le_bytes(), *started)
        }
        Reply::Fault(_)
        | Reply::Nothing
        | Reply::Closed
        | Reply::NotRecovering
        | Reply::BadRanges
        | Reply::NoSuch
        | Reply::NotAppending => write_frame(out, told_status(reply, sync_failed), &[], &[]),
    }
}

/// Writes the answer of version 1 to a request for a change by a client that may only read.
pub fn write_refusal<W: Write>(out: &mut W) -> Result<(), Stop>
    ensures { PutsAnswer refusal_bytes (W.contents out.old) (W.contents out.new) result }
{
    write_frame(out, READ_ONLY, &[], &[])
}

/// Writes an answer with one number, by one call.
#[tactic(auto, unfolding(crate::specs::Request::number_bytes, crate::specs::Request::length_bytes))]
pub fn write_number<W: Write>(out: &mut W, number: u64) -> Result<(), Stop>
    ensures { let answer = frame_bytes (0 ∷ number_bytes number) in
        PutsAnswer answer (W.contents out.old) (W.contents out.new) result }
{
    let [a, b, c, d, e, f, g, h] = number.to_le_bytes();
    put(out, &[9, 0, 0, 0, 0, a, b, c, d, e, f, g, h])
}

// Writes an answer with these bytes and then what starting a sync answered.
#[tactic(auto, unfolding(crate::specs::Request::number_bytes))]
fn write_started<W: Write>(out: &mut W, front: &[u8], started: StartedSync) -> Result<(), Stop>
    ensures { let answer = frame_bytes (0 ∷ front.now ++ started_bytes started) in
        PutsAnswer answer (W.contents out.old) (W.contents out.new) result }
{
    match started {
        StartedSync::Done => write_frame(out, 0, front, &[0]),
        StartedSync::Named(name) => {
            let [a, b, c, d, e, f, g, h] = name.to_le_bytes();
            write_frame(out, 0, front, &[1, a, b, c, d, e, f, g, h])
        }
    }
}

// Writes an answer with these numbers, eight bytes each.
fn write_numbers<W: Write>(out: &mut W, numbers: &[usize]) -> Result<(), Stop>
    ensures { let answer = frame_bytes (0 ∷ flat_map number_bytes numbers.now) in
        PutsAnswer answer (W.contents out.old) (W.contents out.new) result }
{
    let len = numbers.len().checked_mul(8).ok_or(Stop::LongAnswer)?;
    write_head(out, 0, len)?;
    for number in numbers {
        put(out, &(*number as u64).to_le_bytes())?;
    }
    Ok(())
}

/// Writes an answer with this status and then these bytes.
pub fn write_frame<W: Write>(
    out: &mut W,
    status: u8,
    front: &[u8],
    bytes: &[u8],
) -> Result<(), Stop>
    ensures { let answer = frame_bytes (status ∷ front.now ++ bytes.now) in
        PutsAnswer answer (W.contents out.old) (W.contents out.new) result }
{
    let len = front
        .len()
        .checked_add(bytes.len())
        .ok_or(Stop::LongAnswer)?;
    write_head(out, status, len)?;
    put(out, front)?;
    put(out, bytes)
}

/// Writes the length and the status of an answer with so many bytes after them.
#[tactic(auto, unfolding(crate::specs::Request::length_bytes))]
#[inline(always)]
pub fn write_head<W: Write>(out: &mut W, status: u8, len: usize) -> Result<(), Stop>
    ensures { PutsHead status len (W.contents out.old) (W.contents out.new) result }
{
    if len as u64 > MOST_BYTES {
        return Err(Stop::LongAnswer);
    }
    let [a, b, c, d] = (len as u32 + 1).to_le_bytes();
    put(out, &[a, b, c, d, status])
}
