// Serving: requests are read, taken as steps of a session, and answered.
ghost use Rattle.std.specs.Prelude.{◌≡◌, ◌++◌, ℕ, List, Option, None, [], IfOk, IfSome, OnOk};
ghost use Rattle.std.specs.Prelude.{length};
ghost use Rattle.std.specs.Io.Buffered.{reader_buffer, reader_remaining};
ghost use Rattle.std.specs.Io.Buffered.{writer_buffer, writer_contents};
ghost use Rattle.std.specs.Io.KnownBytes.{Consumes, Keeps};
ghost use Rattle.disk.specs.Disk.{Life};
ghost use Rattle.session.specs.Run.{IsSessionReady};
ghost use Rattle.protocol.specs.Input.{IsSent, has_frame};
ghost use Rattle.protocol.specs.Opening.{ReadsOpening};
ghost use Rattle.protocol.specs.Serve.{EndsSession, Greeted, Greets, ReadsNext};
ghost use Rattle.protocol.specs.Serve.{RecoversSession, Serves, ServesFile, is_close, later_fault};
ghost use Rattle.protocol.specs.Serve.{LendsAppend, TakesHeld, names_of};
ghost use Rattle.protocol.specs.Taking.{TellsStop};

use crate::answer::write_answer;
use crate::opening::{Opening, read_opening, tell_opening};
use crate::output::put;
use crate::refusal::{status_of_flaw, write_told};
use crate::request::{Request, length_of, read_request};
use crate::stop::{ReadError, Stop};
use crate::taking::{take_append, take_request};
use crate::version::Version;
use crate::{Cause, Setting};
use cache::CacheRef;
use disk::{Blob, Error};
use page::Sum;
use session::{Reply, Session, Step};
use std::alloc::Global;
use std::io::{BufRead, BufReader, BufWriter, Read, Write};

/// The first version of the protocol.
pub const VERSION: u8 = 1;

/// Recovers a blob, and serves it to one client. The input is the client's whole session, from its
/// version or its offer of versions on, and the output gets all answers. Before a read that may
/// have to wait for input, all answers are flushed. The output may still hold back the last ones:
/// the caller must flush it.
///
/// The recovery gives up at most [`Setting::allowed`] physical bytes. If it would give up more, the
/// call answers [`Stop::WouldCut`]: the blob was only looked at, no input was read, and no answer
/// was written. If the recovery fails, the client is answered with its error, and the call answers
/// [`Stop::Refused`].
///
/// The hello of version 2 has how many physical bytes the recovery cut, and two names: `checksum`,
/// and `set_aside` for the copy that the caller made of what may go, which is empty if there is no
/// copy.
pub fn serve_file<B: Blob + Cause, H: Sum, R: Read, W: Write + Drop>(
    alloc: Global,
    blob: &mut B,
    setting: &Setting,
    checksum: &str,
    set_aside: &str,
    input: &mut BufReader<R>,
    out: &mut BufWriter<W>,
) -> Result<(), Stop>
    ensures { let old = B.life blob.old in let new = B.life blob.new in
        let named = names_of checksum.now set_aside.now in
        let input_old = reader_remaining R.remaining input.old in
        let input_new = reader_remaining R.remaining input.new in
        let out_old = writer_contents W.contents out.old in
        let out_new = writer_contents W.contents out.new in
        ServesFile H.sum_of setting.now named old new (B.sync_failed blob.new) input_old input_new
        out_old out_new result }
{
    let len = blob.len();
    let (mut session, mut cache) = greet::<B, H, W>(alloc, blob, setting, out)?;
    serve_greeted(
        alloc,
        len,
        &mut session,
        blob,
        &mut cache,
        setting,
        checksum,
        set_aside,
        input,
        out,
    )
}

// Serves a client that was greeted, over a blob that had `len` physical bytes before its recovery.
fn serve_greeted<B: Blob + Cause, H: Sum, R: Read, W: Write + Drop>(
    alloc: Global,
    len: u64,
    session: &mut Session<B, H>,
    blob: &mut B,
    cache: &mut CacheRef,
    setting: &Setting,
    checksum: &str,
    set_aside: &str,
    input: &mut BufReader<R>,
    out: &mut BufWriter<W>,
) -> Result<(), Stop>
    requires sent { writer_buffer out.old ≡ [] }
    requires ready { let old = (B.life blob.old).present in
        IsSessionReady H.sum_of session.old cache.old old }
    ensures { let between = B.life blob.old in let new = B.life blob.new in
        let named = names_of checksum.now set_aside.now in
        let input_old = reader_remaining R.remaining input.old in
        let input_new = reader_remaining R.remaining input.new in
        let greeting = writer_contents W.contents out.old in
        let out_new = writer_contents W.contents out.new in
        (old : Life) (out_old : Option (List ℕ)) → len ≡ length old.present.readable
        → Greeted H.sum_of setting.now old between (B.sync_failed blob.old) session.old out_old
        greeting
        → ServesFile H.sum_of setting.now named old new (B.sync_failed blob.new) input_old input_new
        out_old out_new result }
{
    let opening = match read_begun(input, out) {
        Ok(opening) => opening,
        Err(error) => return Err(tell_flaw(alloc, Version::Two, Stop::at(0, error), out)),
    };
    let size = session.size().unwrap_or(0);
    let cut = len.saturating_sub(blob.len());
    match tell_opening(opening, setting, checksum, set_aside, size, cut, out)? {
        Some(version) => serve(alloc, version, session, blob, cache, setting, input, out),
        None => Ok(()),
    }
}

// Begins a session, writes the version and the size in logical bytes, and flushes them.
fn greet<B: Blob + Cause, H: Sum, W: Write + Drop>(
    alloc: Global,
    blob: &mut B,
    setting: &Setting,
    out: &mut BufWriter<W>,
) -> Result<(Session<B, H>, CacheRef), Stop>
    ensures greets { let old = B.life blob.old in let new = B.life blob.new in
        let out_old = writer_contents W.contents out.old in
        let out_new = writer_contents W.contents out.new in
        Greets H.sum_of setting.now old new (B.sync_failed blob.new) out_old out_new result }
    ensures sent { OnOk result (writer_buffer out.new ≡ []) }
    ensures ready { let new = (B.life blob.new).present in
        IfOk result (λ r. IsSessionReady H.sum_of r.0 r.1 new) }
{
    let (mut session, mut cache) = match recover::<B, H>(alloc, blob, setting) {
        Ok(begun) => begun,
        Err(Stop::Refused(error)) => {
            put(out, &[VERSION])?;
            write_answer(out, &Reply::Fault(error), blob.failed_sync())?;
            return Err(Stop::Refused(error));
        }
        Err(stop) => return Err(stop),
    };
    put(out, &[VERSION])?;
    let mut replies = Vec::new(alloc);
    take_request(
        alloc,
        Version::One,
        &mut replies,
        &mut session,
        blob,
        &mut cache,
        setting,
        Request::Step(Step::Size),
        out,
    )?;
    out.flush()?;
    Ok((session, cache))
}

// Recovers a blob into a session and its cache, unless the recovery would give up more than the
// setting allows.
fn recover<B: Blob, H: Sum>(
    alloc: Global,
    blob: &mut B,
    setting: &Setting,
) -> Result<(Session<B, H>, CacheRef), Stop>
    ensures recovers { RecoversSession H.sum_of setting.now (B.life blob.old) (B.life blob.new)
        result }
    ensures ready { let new = (B.life blob.new).present in
        IfOk result (λ r. IsSessionReady H.sum_of r.0 r.1 new) }
{
    let mut cache = CacheRef::new(alloc, setting.page_size, setting.pages)?;
    let size = blob.len();
    let session = Session::recover_within(
        alloc,
        blob,
        size,
        setting.capacity,
        &mut cache,
        setting.buffer_size,
        setting.allowed,
    )?;
    Ok((session, cache))
}

// Reads what a client begins with. The caller has flushed all that was written.
fn read_begun<R: Read, W: Write + Drop>(
    input: &mut R,
    _out: &BufWriter<W>,
) -> Result<Opening, ReadError>
    requires sent { writer_buffer _out.now ≡ [] }
    ensures { ReadsOpening (R.remaining input.old) (R.remaining input.new) result }
{
    read_opening(input)
}

/// Takes the requests of the input as steps of the session, one after another, and writes an
/// answer to each after its steps, up to a close or the end of the input. If the client may only
/// read, a request for a change is refused, and none of its steps is taken. All answers are flushed
/// before the program reads a request that hasn't come whole. In version 2, bytes that are no
/// request are answered too, and end the session.
///
/// [`Stop::Lost`] if the writer is gone at the end and a request was answered with an error: the
/// last such error while there was a writer, or the first one if there never was a writer.
pub fn serve<B: Blob + Cause, H: Sum, R: Read, W: Write + Drop>(
    alloc: Global,
    version: Version,
    session: &mut Session<B, H>,
    blob: &mut B,
    cache: &mut CacheRef,
    setting: &Setting,
    input: &mut BufReader<R>,
    out: &mut BufWriter<W>,
) -> Result<(), Stop>
    requires ready { let old = (B.life blob.old).present in
        IsSessionReady H.sum_of session.old cache.old old }
    ensures ready { let new = (B.life blob.new).present in
        IsSessionReady H.sum_of session.new cache.new new }
    ensures serves { let old = B.life blob.old in let new = B.life blob.new in
        let input_old = reader_remaining R.remaining input.old in
        let input_new = reader_remaining R.remaining input.new in
        let out_old = writer_contents W.contents out.old in
        let out_new = writer_contents W.contents out.new in
        Serves H.sum_of setting.now version session.old session.new old new
        (B.sync_failed blob.new) input_old input_new out_old out_new result }
{
    let mut replies = Vec::new(alloc);
    let mut fault = None;
    for number in 1..u64::MAX {
        if !setting.read_only
            && let Some(lent) = lent_append(input.buffer())
        {
            let held_writer = session.size().is_some();
            let len = 5 + lent.len();
            let taken = take_append(alloc, version, session, blob, cache, setting, lent, out);
            pass(input, len);
            fault = later(fault, taken?, held_writer);
            continue;
        }
        let request = match next_request(alloc, version, number, input, out) {
            Ok(Some(request)) => request,
            Ok(None) => return end(session, fault),
            Err(stop) => return Err(tell_flaw(alloc, version, stop, out)),
        };
        if is_close(&request) {
            return end(session, fault);
        }
        let had_writer = session.size().is_some();
        let next = take_request(
            alloc,
            version,
            &mut replies,
            session,
            blob,
            cache,
            setting,
            request,
            out,
        )?;
        fault = later(fault, next, had_writer);
    }
    Err(Stop::Failed)
}

// The bytes of an append, if these bytes begin with its whole frame.
fn lent_append(bytes: &[u8]) -> Option<&[u8]>
    ensures { IfSome result (λ lent. LendsAppend bytes.now lent.now) }
{
    let (four, rest) = bytes.split_first_chunk::<4>()?;
    let length = length_of(four);
    let (kind, rest) = rest.split_first()?;
    if *kind != 1 || length == 0 {
        return None;
    }
    let len = length as usize - 1;
    if len > rest.len() {
        return None;
    }
    Some(&rest[..len])
}

// Passes so many bytes of the buffered input.
fn pass<R: Read>(input: &mut BufReader<R>, count: usize)
    ensures { let input_old = reader_remaining R.remaining input.old in
        let input_new = reader_remaining R.remaining input.new in
        (front rest : List ℕ) → reader_buffer input.old ≡ front ++ rest → length front ≡ count
        → Consumes input_old input_new front }
{
    input.consume(count);
}

// Answers bytes that are no request, in version 2, and returns why the session stops.
fn tell_flaw<W: Write>(alloc: Global, version: Version, stop: Stop, out: &mut W) -> Stop
    ensures { TellsStop version stop (W.contents out.old) (W.contents out.new) result }
{
    match (version, stop) {
        (Version::Two, Stop::Malformed(_, flaw)) => {
            match write_told(alloc, out, status_of_flaw(flaw), 2, 0, None) {
                Ok(()) => stop,
                Err(other) => other,
            }
        }
        _ => stop,
    }
}

// Whether a request is a close.
fn is_close(request: &Request) -> bool
    ensures { result ≡ is_close request.now }
{
    matches!(request, Request::Close)
}

// The later of two errors, if there was a writer when its request was taken, or no earlier error.
// Else the earlier one.
fn later(fault: Option<Error>, next: Option<Error>, had_writer: bool) -> Option<Error>
    ensures { result ≡ later_fault fault next had_writer }
{
    if next.is_some() && (had_writer || fault.is_none()) {
        next
    } else {
        fault
    }
}

// How a session ends whose requests were all answered.
fn end<B: Blob, H: Sum>(session: &Session<B, H>, fault: Option<Error>) -> Result<(), Stop>
    ensures { EndsSession session.now fault result }
{
    match fault {
        Some(error) if session.size().is_none() => Err(Stop::Lost(error)),
        _ => Ok(()),
    }
}

// Reads the request of this number. If the request hasn't come whole, all answers are flushed
// before the read, which may wait for the rest. One that has come whole is read where it stands.
fn next_request<R: Read, W: Write + Drop>(
    alloc: Global,
    version: Version,
    number: u64,
    input: &mut BufReader<R>,
    out: &mut BufWriter<W>,
) -> Result<Option<Request>, Stop>
    ensures keeps { let out_old = writer_contents W.contents out.old in
        Keeps out_old (writer_contents W.contents out.new) }
    ensures sent { OnOk result (IsSent (reader_buffer input.old) (writer_buffer out.new)) }
    ensures reads { let input_old = reader_remaining R.remaining input.old in
        let input_new = reader_remaining R.remaining input.new in
        ReadsNext version number input_old input_new result }
{
    if !holds_frame(input.buffer()) {
        out.flush()?;
    } else if let Some(request) = take_held(alloc, version, input) {
        return Ok(Some(request));
    }
    read_sent(alloc, version, number, input, out)
}

// Takes the request that stands at the front of the buffered input. If none stands there, the input
// is left as it is.
fn take_held<R: Read>(alloc: Global, version: Version, input: &mut BufReader<R>) -> Option<Request>
    ensures buffer { result ≡ None → reader_buffer input.new ≡ reader_buffer input.old }
    ensures takes { let input_old = reader_remaining R.remaining input.old in
        let input_new = reader_remaining R.remaining input.new in
        TakesHeld version input_old input_new result }
{
    let mut held = input.buffer();
    let len = held.len();
    let Ok(Some(request)) = read_request(alloc, version, &mut held) else {
        return None;
    };
    let taken = len - held.len();
    input.consume(taken);
    Some(request)
}

// Whether these bytes begin with a whole frame: then its request is read without waiting.
fn holds_frame(bytes: &[u8]) -> bool
    ensures { result ≡ has_frame bytes.now }
{
    match bytes.first_chunk::<4>() {
        Some(four) => bytes.len() as u64 - 4 >= u64::from(u32::from_le_bytes(*four)),
        None => false,
    }
}

// Reads the request of this number. Either it has come whole, or all answers are flushed.
fn read_sent<R: Read, W: Write + Drop>(
    alloc: Global,
    version: Version,
    number: u64,
    input: &mut BufReader<R>,
    _out: &BufWriter<W>,
) -> Result<Option<Request>, Stop>
    requires sent { IsSent (reader_buffer input.old) (writer_buffer _out.now) }
    ensures reads { let input_old = reader_remaining R.remaining input.old in
        let input_new = reader_remaining R.remaining input.new in
        ReadsNext version number input_old input_new result }
{
    match read_request(alloc, version, input) {
        Ok(request) => Ok(request),
        Err(error) => Err(Stop::at(number, error)),
    }
}
