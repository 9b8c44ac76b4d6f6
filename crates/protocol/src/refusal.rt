// Refusals of the second version: what was refused, why, and what may be done next.
ghost use Rattle.std.specs.Prelude.{◌≡◌, ◌≤◌, ◌∷◌, ◌++◌, length, IfErr, OnOk};
ghost use Rattle.protocol.specs.Answer.{AppendsRefusal, AppendsRefusalPart, advice_byte};
ghost use Rattle.protocol.specs.Answer.{advice_for, fault_in};
ghost use Rattle.protocol.specs.Answer.{flaw_status, status_byte, told_error, told_status};
ghost use Rattle.protocol.specs.Output.{PutsBytes};
ghost use Rattle.protocol.specs.Request.{frame_bytes, number_bytes};
ghost use Rattle.protocol.specs.Taking.{TellsRefusal};

use crate::answer::write_frame;
use crate::stop::{Flaw, Stop};
use disk::Error;
use session::Reply;
use std::alloc::Global;
use std::io::{self, Write};

/// The status of a request whose bytes can't be read as records, or as ranges.
pub const UNREADABLE: u8 = 23;

/// The status of a request for a change by a client that may only read.
pub const READ_ONLY: u8 = 22;

// The highest status for a failed call of the file.
const LAST_OF_FILE: u8 = 4;

// The most bytes of the words for why a file failed.
const MOST_WORDS: usize = 255;

/// The status of a reply.
pub fn status(reply: &Reply) -> u8
    ensures { result ≡ status_byte reply.now }
{
    match reply {
        Reply::Fault(error) => error.number(),
        Reply::Nothing => 16,
        Reply::Closed => 17,
        Reply::NotRecovering => 18,
        Reply::BadRanges => 19,
        Reply::NoSuch => 20,
        Reply::NotAppending => 21,
        _ => 0,
    }
}

/// The status of a reply as a client gets it, by whether a sync of the file has failed. Then
/// what the layer answers as a failed write, or a failed change of the size, was that sync.
pub fn told_status(reply: &Reply, sync_failed: bool) -> u8
    ensures { result ≡ told_status reply.now sync_failed }
{
    match reply {
        Reply::Fault(error) => told_error(*error, sync_failed).number(),
        _ => status(reply),
    }
}

// The error that a client gets.
fn told_error(error: Error, sync_failed: bool) -> Error
    ensures { result ≡ told_error error sync_failed }
{
    match error {
        Error::WriteFailed | Error::ResizeFailed if sync_failed => Error::SyncFailed,
        _ => error,
    }
}

/// The status for bytes that are no request.
pub fn status_of_flaw(flaw: Flaw) -> u8
    ensures { result ≡ flaw_status flaw }
{
    match flaw {
        Flaw::Cut => 32,
        Flaw::Empty => 33,
        Flaw::Kind(_) => 34,
        Flaw::Length => 35,
        Flaw::LongRead => 36,
        Flaw::NoBuffer => 37,
    }
}

/// What a client may do after this reply, by whether there is a writer: 0, ask for something else;
/// 1, ask again; 2, open the file anew; 3, replace it by a copy of itself. The last is so after
/// each reply once a sync of the file has failed.
pub fn advice(reply: &Reply, has_writer: bool, sync_failed: bool) -> u8
    ensures { result ≡ advice_byte reply.now has_writer sync_failed }
{
    if sync_failed {
        return 3;
    }
    match reply {
        Reply::Fault(error) => advice_after(*error, has_writer),
        Reply::Closed => 2,
        _ => 0,
    }
}

// What a client may do after this error.
fn advice_after(error: Error, has_writer: bool) -> u8
    ensures { result ≡ advice_for error has_writer }
{
    match (error, has_writer) {
        (Error::SyncFailed, _) => 3,
        (Error::ReadFailed | Error::OutOfMemory, true) => 1,
        (Error::BlobInsufficientLength, _) | (Error::OffsetOverflow, true) => 0,
        _ => 2,
    }
}

/// Writes the first of these replies that refuses, and answers true. If none refuses, it writes
/// nothing and answers false.
pub fn tell_refusal<W: Write>(
    alloc: Global,
    out: &mut W,
    replies: &[Reply],
    has_writer: bool,
    sync_failed: bool,
    cause: Option<&io::Error>,
) -> Result<bool, Stop>
    ensures { let out_old = W.contents out.old in
        TellsRefusal replies.now has_writer sync_failed out_old (W.contents out.new) result }
{
    let mut taken = 0;
    for reply in replies {
        let status = status(reply);
        if status != 0 {
            let told = told_status(reply, sync_failed);
            let advice = advice(reply, has_writer, sync_failed);
            let cause = if told <= LAST_OF_FILE { cause } else { None };
            write_told(alloc, out, told, advice, taken, cause)?;
            return Ok(true);
        }
        taken += 1;
    }
    Ok(false)
}

/// The first error of these replies.
pub fn first_fault(replies: &[Reply]) -> Option<Error>
    ensures { result ≡ fault_in replies.now }
{
    for reply in replies {
        if let Reply::Fault(error) = reply {
            return Some(*error);
        }
    }
    None
}

/// Writes a refusal: its status, what may be done next, how many steps of the request were taken,
/// and why the file failed, if it did.
pub fn write_told<W: Write>(
    alloc: Global,
    out: &mut W,
    status: u8,
    advice: u8,
    taken: u64,
    cause: Option<&io::Error>,
) -> Result<(), Stop>
    ensures tells { OnOk result
        (AppendsRefusal status advice taken (W.contents out.old) (W.contents out.new)) }
    ensures failed { IfErr result (λ stop. (stop ≡ Stop.Failed)
        × AppendsRefusalPart status advice taken (W.contents out.old) (W.contents out.new)) }
{
    let Some(error) = cause else {
        return write_cause(out, status, advice, taken, 0, &[]);
    };
    let number = u64::from(error.raw_os_error().unwrap_or(0).unsigned_abs());
    match format!(in alloc; "{error}") {
        Ok(words) => {
            let words = words.as_bytes();
            let words = &words[..words.len().min(MOST_WORDS)];
            write_cause(out, status, advice, taken, number, words)
        }
        Err(_) => write_cause(out, status, advice, taken, number, &[]),
    }
}

// Writes a refusal with the number and the words of its cause.
#[tactic(auto, unfolding(crate::specs::Request::number_bytes))]
fn write_cause<W: Write>(
    out: &mut W,
    status: u8,
    advice: u8,
    taken: u64,
    number: u64,
    words: &[u8],
) -> Result<(), Stop>
    requires { length words.now ≤ 255 }
    ensures { let told = number_bytes taken ++ number_bytes number ++ words.now in
        PutsBytes (frame_bytes (status ∷ advice ∷ told)) (W.contents out.old) (W.contents out.new)
        result }
{
    let [a, b, c, d, e, f, g, h] = taken.to_le_bytes();
    let [i, j, k, l, m, n, o, p] = number.to_le_bytes();
    let front = [advice, a, b, c, d, e, f, g, h, i, j, k, l, m, n, o, p];
    write_frame(out, status, &front, words)
}
