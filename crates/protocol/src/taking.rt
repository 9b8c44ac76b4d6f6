// Requests are taken as steps of a session, and answered.
ghost use Rattle.std.specs.Prelude.{◌≡◌, ◌<◌, ◌+◌, ◌*◌, ◌%◌, ◌^◌, ◌&&◌, ◌++◌, ◌∷◌, []};
ghost use Rattle.std.specs.Prelude.{◌≤◌, drop, false, true, None, is_some, length};
ghost use Rattle.std.specs.Prelude.{IfOk, OnOk, ℕ, Vec};
ghost use Rattle.std.specs.declared.alloc.Global.{Global};
ghost use Rattle.std.specs.List.{flat_map, sum};
ghost use Rattle.session.specs.declared.steps.Step.TheVariants.{Append as AppendStep};
ghost use Rattle.session.specs.Run.{IsSessionReady};
ghost use Rattle.std.specs.Io.Buffered.{writer_buffer, writer_contents};
ghost use Rattle.protocol.specs.Answer.{first_refusal, IsAnswerWith, PutsAnswer};
ghost use Rattle.protocol.specs.Request.{IsRequest, frame_bytes, number_bytes};
ghost use Rattle.protocol.specs.Serve.{AreSteps, asks_change, gives_last};
ghost use Rattle.protocol.specs.Serve.{is_close, IsChangeRefused, last_payload, records_payload};
ghost use Rattle.protocol.specs.Serve.{started_of, started_payload, steps_then, TakesRequest};
ghost use Rattle.protocol.specs.Taking.{Finishes, IsAppendReply, GivesPayload, IsOnlyAnswer};
ghost use Rattle.protocol.specs.Taking.{IsStepAnswer, RunsSteps, TellsUnreadable, WritesAnswer};
ghost use Rattle.protocol.specs.Together.{lengths_in, record_starts};
ghost use Rattle.protocol.specs.declared.version.Version.TheVariants.{Two};

use crate::answer::{write_answer, write_frame, write_head, write_number, write_refusal};
use crate::output::put;
use crate::refusal::{READ_ONLY, UNREADABLE, first_fault, tell_refusal, write_told};
use crate::request::{Request, Then};
use crate::stop::Stop;
use crate::together::{ranges_of, record_lengths, write_starts};
use crate::version::Version;
use crate::{Cause, Setting};
use cache::CacheRef;
use disk::{Blob, Error, StartedSync};
use page::Sum;
use session::{Reply, Session, Step, append, run};
use std::alloc::{AllocError, Global};
use std::io::{self, BufWriter, Write};

/// Takes the steps of a request, unless the request is refused, and then writes its answer. At a
/// flush all answers are sent then. Returns the first error of the replies, if there is one.
/// `replies` must be empty, and is so again at `Ok`: only its memory is kept from request to
/// request.
pub fn take_request<B: Blob + Cause, H: Sum, W: Write + Drop>(
    alloc: Global,
    version: Version,
    replies: &mut Vec<Reply>,
    session: &mut Session<B, H>,
    blob: &mut B,
    cache: &mut CacheRef,
    setting: &Setting,
    request: Request,
    out: &mut BufWriter<W>,
) -> Result<Option<Error>, Stop>
    requires none { replies.old.items ≡ [] }
    requires asked { IsRequest version request }
    requires open { is_close request ≡ false }
    requires ready { let old = (B.life blob.old).present in
        IsSessionReady H.sum_of session.old cache.old old }
    ensures none { OnOk result (replies.new.items ≡ []) }
    ensures ready { let new = (B.life blob.new).present in
        IsSessionReady H.sum_of session.new cache.new new }
    ensures takes { let old = B.life blob.old in let new = B.life blob.new in
        let out_old = writer_contents W.contents out.old in
        let out_new = writer_contents W.contents out.new in
        TakesRequest H.sum_of setting.now version request session.old session.new old new
        (B.sync_failed blob.new) out_old out_new result }
    ensures sent { request ≡ Request.Flush → OnOk result (writer_buffer out.new ≡ []) }
{
    if setting.read_only && is_change(&request) {
        let written = refuse_change(alloc, version, out);
        return finish(replies, written);
    }
    match request {
        Request::Step(step) => {
            take_step(
                alloc, version, replies, session, blob, cache, setting, step, out,
            )
        }
        Request::Records(fields, then) => {
            take_records(
                alloc, replies, session, blob, cache, setting, fields, then, out,
            )
        }
        Request::Ranges(fields) => {
            take_ranges(alloc, replies, session, blob, cache, setting, fields, out)
        }
        Request::SyncSize => {
            let steps = [Step::Sync, Step::Size];
            take_last(
                alloc,
                replies,
                session,
                blob,
                cache,
                setting,
                Request::SyncSize,
                &steps,
                out,
            )
        }
        Request::Look => {
            let steps = [Step::Scan(0, u64::MAX, setting.buffer_size)];
            take_last(
                alloc,
                replies,
                session,
                blob,
                cache,
                setting,
                Request::Look,
                &steps,
                out,
            )
        }
        Request::Flush => {
            let written = write_flushed(out);
            finish(replies, written)
        }
        Request::CountOpen => {
            let written = write_open(out, session.open_snapshots(), session.open_replays());
            finish(replies, written)
        }
        Request::Close => unreachable!(),
    }
}

/// Takes an append of bytes that it is lent, and then writes its answer, as [`take_request`] does
/// for the request with these bytes.
pub fn take_append<B: Blob + Cause, H: Sum, W: Write>(
    alloc: Global,
    version: Version,
    session: &mut Session<B, H>,
    blob: &mut B,
    cache: &mut CacheRef,
    _setting: &Setting,
    bytes: &[u8],
    out: &mut W,
) -> Result<Option<Error>, Stop>
    requires may { _setting.now.read_only ≡ false }
    requires ready { let old = (B.life blob.old).present in
        IsSessionReady H.sum_of session.old cache.old old }
    ensures ready { let new = (B.life blob.new).present in
        IsSessionReady H.sum_of session.new cache.new new }
    ensures takes { let old = B.life blob.old in let new = B.life blob.new in
        (owned : Vec ℕ Global) × (owned.items ≡ bytes.now)
        × TakesRequest H.sum_of _setting.now version (Request.Step (AppendStep owned)) session.old
        session.new old new (B.sync_failed blob.new) (W.contents out.old) (W.contents out.new)
        result }
{
    // A step has a vector: the proof takes this one, and gives it the bytes.
    let _owned: Vec<u8> = Vec::new(alloc);
    let reply = append(session, blob, cache, bytes);
    if let Reply::At(at) = reply {
        // Each version answers so, whatever else there is to tell.
        let written = write_number(out, at);
        return told_of(&[], written);
    }
    let replies = [reply];
    let has_writer = session.size().is_some();
    let failed = blob.failed_sync();
    let written = answer(
        alloc,
        version,
        out,
        &replies,
        has_writer,
        failed,
        blob.cause(),
    );
    told_of(&replies, written)
}

// The first error among these replies, or why the answer wasn't written.
fn told_of(replies: &[Reply], written: Result<(), Stop>) -> Result<Option<Error>, Stop>
    ensures { Finishes replies.now written result }
{
    written?;
    Ok(first_fault(replies))
}

// Writes an answer without a payload, and flushes all answers.
fn write_flushed<W: Write + Drop>(out: &mut BufWriter<W>) -> Result<(), Stop>
    ensures answers { let out_old = writer_contents W.contents out.old in
        PutsAnswer (frame_bytes (0 ∷ [])) out_old (writer_contents W.contents out.new) result }
    ensures sent { OnOk result (writer_buffer out.new ≡ []) }
{
    write_frame(out, 0, &[], &[])?;
    out.flush()?;
    Ok(())
}

// Writes an answer with how many snapshots and how many replays are open.
#[tactic(auto, unfolding(crate::specs::Request::number_bytes))]
fn write_open<W: Write>(out: &mut W, snapshots: usize, replays: usize) -> Result<(), Stop>
    ensures { let told = number_bytes snapshots ++ number_bytes replays in
        PutsAnswer (frame_bytes (0 ∷ told)) (W.contents out.old) (W.contents out.new) result }
{
    let snapshots = (snapshots as u64).to_le_bytes();
    let replays = (replays as u64).to_le_bytes();
    write_frame(out, 0, &snapshots, &replays)
}

// Whether a client that may only read is refused this request.
fn is_change(request: &Request) -> bool
    ensures { result ≡ asks_change request.now }
{
    match request {
        Request::Step(step) => matches!(
            step,
            Step::Append(_) | Step::Sync | Step::StartSync | Step::Begin | Step::Truncate(_)
        ),
        Request::Records(_, _) | Request::SyncSize => true,
        _ => false,
    }
}

// Answers a request for a change by a client that may only read.
fn refuse_change<W: Write>(alloc: Global, version: Version, out: &mut W) -> Result<(), Stop>
    ensures { let out_old = W.contents out.old in
        WritesAnswer (IsChangeRefused version) out_old (W.contents out.new) result }
{
    match version {
        Version::One => write_refusal(out),
        Version::Two => write_told(alloc, out, READ_ONLY, 0, 0, None),
    }
}

// Takes these steps, and leaves their replies, and no others, in `replies`.
fn take_steps<B: Blob, H: Sum>(
    replies: &mut Vec<Reply>,
    session: &mut Session<B, H>,
    blob: &mut B,
    cache: &mut CacheRef,
    steps: &[Step],
) -> Result<(), Stop>
    requires none { replies.old.items ≡ [] }
    requires ready { let old = (B.life blob.old).present in
        IsSessionReady H.sum_of session.old cache.old old }
    ensures ready { let new = (B.life blob.new).present in
        IsSessionReady H.sum_of session.new cache.new new }
    ensures runs { let old = B.life blob.old in let new = B.life blob.new in
        RunsSteps H.sum_of steps.now session.old session.new cache.old cache.new old new
        replies.new.items result }
{
    match run(session, blob, cache, steps, replies) {
        Ok(()) => Ok(()),
        Err(_) => Err(Stop::OutOfMemory),
    }
}

// Empties `replies`. Returns the first error among them, or why the answer wasn't written.
fn finish(replies: &mut Vec<Reply>, written: Result<(), Stop>) -> Result<Option<Error>, Stop>
    ensures none { OnOk result (replies.new.items ≡ []) }
    ensures told { Finishes replies.old.items written result }
{
    let fault = first_fault(replies);
    replies.clear();
    written?;
    Ok(fault)
}

// Takes one step, and answers its reply.
fn take_step<B: Blob + Cause, H: Sum, W: Write>(
    alloc: Global,
    version: Version,
    replies: &mut Vec<Reply>,
    session: &mut Session<B, H>,
    blob: &mut B,
    cache: &mut CacheRef,
    setting: &Setting,
    step: Step,
    out: &mut W,
) -> Result<Option<Error>, Stop>
    requires none { replies.old.items ≡ [] }
    requires may { (setting.now.read_only && asks_change (Request.Step step)) ≡ false }
    requires ready { let old = (B.life blob.old).present in
        IsSessionReady H.sum_of session.old cache.old old }
    ensures none { OnOk result (replies.new.items ≡ []) }
    ensures ready { let new = (B.life blob.new).present in
        IsSessionReady H.sum_of session.new cache.new new }
    ensures takes { let old = B.life blob.old in let new = B.life blob.new in
        TakesRequest H.sum_of setting.now version (Request.Step step) session.old session.new old
        new (B.sync_failed blob.new) (W.contents out.old) (W.contents out.new) result }
{
    let steps = [step];
    take_steps(replies, session, blob, cache, &steps)?;
    let has_writer = session.size().is_some();
    let failed = blob.failed_sync();
    let written = answer(
        alloc,
        version,
        out,
        replies,
        has_writer,
        failed,
        blob.cause(),
    );
    finish(replies, written)
}

// Answers the only reply, in this version.
fn answer<W: Write>(
    alloc: Global,
    version: Version,
    out: &mut W,
    replies: &[Reply],
    has_writer: bool,
    sync_failed: bool,
    cause: Option<&io::Error>,
) -> Result<(), Stop>
    requires { length replies.now ≡ 1 }
    ensures { let out_old = W.contents out.old in
        WritesAnswer (IsStepAnswer version replies.now has_writer sync_failed) out_old
        (W.contents out.new) result }
{
    match version {
        Version::One => answer_one(out, replies, sync_failed),
        Version::Two => answer_last(alloc, out, replies, has_writer, sync_failed, cause),
    }
}

// Answers the only reply, in version 1.
fn answer_one<W: Write>(out: &mut W, replies: &[Reply], sync_failed: bool) -> Result<(), Stop>
    requires { length replies.now ≡ 1 }
    ensures { let out_old = W.contents out.old in
        WritesAnswer (IsOnlyAnswer replies.now sync_failed) out_old (W.contents out.new) result }
{
    match replies {
        [reply] => write_answer(out, reply, sync_failed),
        _ => unreachable!(),
    }
}

// Answers the last of these replies, none of which refuses.
fn write_last<W: Write>(out: &mut W, replies: &[Reply]) -> Result<(), Stop>
    requires some { 0 < length replies.now }
    requires none { first_refusal replies.now ≡ None }
    ensures { let out_old = W.contents out.old in
        WritesAnswer (GivesPayload (last_payload replies.now)) out_old (W.contents out.new) result }
{
    match replies.last() {
        Some(reply) => write_answer(out, reply, false),
        None => unreachable!(),
    }
}

// Takes the steps of a request of the second version that is answered by the last reply.
fn take_last<B: Blob + Cause, H: Sum, W: Write>(
    alloc: Global,
    replies: &mut Vec<Reply>,
    session: &mut Session<B, H>,
    blob: &mut B,
    cache: &mut CacheRef,
    setting: &Setting,
    request: Request,
    steps: &[Step],
    out: &mut W,
) -> Result<Option<Error>, Stop>
    requires none { replies.old.items ≡ [] }
    requires may { (setting.now.read_only && asks_change request) ≡ false }
    requires some { 0 < length steps.now }
    requires steps { AreSteps setting.now request steps.now }
    requires last { gives_last request ≡ true }
    requires ready { let old = (B.life blob.old).present in
        IsSessionReady H.sum_of session.old cache.old old }
    ensures none { OnOk result (replies.new.items ≡ []) }
    ensures ready { let new = (B.life blob.new).present in
        IsSessionReady H.sum_of session.new cache.new new }
    ensures takes { let old = B.life blob.old in let new = B.life blob.new in
        TakesRequest H.sum_of setting.now Two request session.old session.new old new
        (B.sync_failed blob.new) (W.contents out.old) (W.contents out.new) result }
{
    take_steps(replies, session, blob, cache, steps)?;
    let has_writer = session.size().is_some();
    let failed = blob.failed_sync();
    let written = answer_last(alloc, out, replies, has_writer, failed, blob.cause());
    finish(replies, written)
}

// Answers the first refusal among these replies, or the last of them.
fn answer_last<W: Write>(
    alloc: Global,
    out: &mut W,
    replies: &[Reply],
    has_writer: bool,
    sync_failed: bool,
    cause: Option<&io::Error>,
) -> Result<(), Stop>
    requires some { 0 < length replies.now }
    ensures { let out_old = W.contents out.old in
        let payload = last_payload replies.now in
        WritesAnswer (IsAnswerWith payload replies.now has_writer sync_failed) out_old
        (W.contents out.new) result }
{
    if tell_refusal(alloc, out, replies, has_writer, sync_failed, cause)? {
        return Ok(());
    }
    write_last(out, replies)
}

// Reads the ranges that these bytes encode, and answers, or refuses bytes that encode none.
fn take_ranges<B: Blob + Cause, H: Sum, W: Write>(
    alloc: Global,
    replies: &mut Vec<Reply>,
    session: &mut Session<B, H>,
    blob: &mut B,
    cache: &mut CacheRef,
    setting: &Setting,
    fields: Vec<u8>,
    out: &mut W,
) -> Result<Option<Error>, Stop>
    requires none { replies.old.items ≡ [] }
    requires fits { length fields.items < 2 ^ 32 }
    requires ready { let old = (B.life blob.old).present in
        IsSessionReady H.sum_of session.old cache.old old }
    ensures none { OnOk result (replies.new.items ≡ []) }
    ensures ready { let new = (B.life blob.new).present in
        IsSessionReady H.sum_of session.new cache.new new }
    ensures takes { let old = B.life blob.old in let new = B.life blob.new in
        TakesRequest H.sum_of setting.now Two (Request.Ranges fields) session.old session.new old
        new (B.sync_failed blob.new) (W.contents out.old) (W.contents out.new) result }
{
    let Some(ranges) = ranges_of(alloc, &fields)? else {
        return tell_unreadable(alloc, out);
    };
    let steps = [Step::ReadRanges(ranges)];
    let request = Request::Ranges(fields);
    take_last(
        alloc, replies, session, blob, cache, setting, request, &steps, out,
    )
}

// Refuses a request whose bytes can't be read as records, or as ranges.
fn tell_unreadable<W: Write>(alloc: Global, out: &mut W) -> Result<Option<Error>, Stop>
    ensures { let out_old = W.contents out.old in
        TellsUnreadable out_old (W.contents out.new) result }
{
    write_told(alloc, out, UNREADABLE, 0, 0, None)?;
    Ok(None)
}

// Appends the records that these bytes encode, does what follows, and answers, or refuses bytes
// that encode none.
fn take_records<B: Blob + Cause, H: Sum, W: Write>(
    alloc: Global,
    replies: &mut Vec<Reply>,
    session: &mut Session<B, H>,
    blob: &mut B,
    cache: &mut CacheRef,
    setting: &Setting,
    fields: Vec<u8>,
    then: Then,
    out: &mut W,
) -> Result<Option<Error>, Stop>
    requires none { replies.old.items ≡ [] }
    requires fits { length fields.items < 2 ^ 32 }
    requires may { setting.now.read_only ≡ false }
    requires ready { let old = (B.life blob.old).present in
        IsSessionReady H.sum_of session.old cache.old old }
    ensures none { OnOk result (replies.new.items ≡ []) }
    ensures ready { let new = (B.life blob.new).present in
        IsSessionReady H.sum_of session.new cache.new new }
    ensures takes { let old = B.life blob.old in let new = B.life blob.new in
        TakesRequest H.sum_of setting.now Two (Request.Records fields then) session.old session.new
        old new (B.sync_failed blob.new) (W.contents out.old) (W.contents out.new) result }
{
    let Some(lengths) = record_lengths(&fields) else {
        return tell_unreadable(alloc, out);
    };
    let bytes = copy_from(alloc, &fields, 4 + lengths.len())?;
    append_then(replies, session, blob, cache, Step::Append(bytes), then)?;
    let has_writer = session.size().is_some();
    let failed = blob.failed_sync();
    let written = answer_records(
        alloc,
        out,
        lengths,
        replies,
        has_writer,
        failed,
        blob.cause(),
    );
    finish(replies, written)
}

// A copy of these bytes from this place on.
fn copy_from(alloc: Global, bytes: &[u8], start: usize) -> Result<Vec<u8>, AllocError>
    requires { start ≤ length bytes.now }
    ensures { IfOk result (λ copy. copy.items ≡ drop start bytes.now) }
{
    let mut copy = Vec::new(alloc);
    copy.extend_from_slice(&bytes[start..])?;
    Ok(copy)
}

// Takes this append, and then a sync, the start of a sync, or nothing.
fn append_then<B: Blob, H: Sum>(
    replies: &mut Vec<Reply>,
    session: &mut Session<B, H>,
    blob: &mut B,
    cache: &mut CacheRef,
    append: Step,
    then: Then,
) -> Result<(), Stop>
    requires none { replies.old.items ≡ [] }
    requires ready { let old = (B.life blob.old).present in
        IsSessionReady H.sum_of session.old cache.old old }
    ensures ready { let new = (B.life blob.new).present in
        IsSessionReady H.sum_of session.new cache.new new }
    ensures runs { let old = B.life blob.old in let new = B.life blob.new in
        RunsSteps H.sum_of (append ∷ steps_then then) session.old session.new cache.old cache.new
        old new replies.new.items result }
{
    match then {
        Then::Nothing => take_steps(replies, session, blob, cache, &[append]),
        Then::Sync => take_steps(replies, session, blob, cache, &[append, Step::Sync]),
        Then::Start => take_steps(replies, session, blob, cache, &[append, Step::StartSync]),
    }
}

// Answers an append of records of these lengths, and what followed.
fn answer_records<W: Write>(
    alloc: Global,
    out: &mut W,
    lengths: &[u8],
    replies: &[Reply],
    has_writer: bool,
    sync_failed: bool,
    cause: Option<&io::Error>,
) -> Result<(), Stop>
    requires some { 0 < length replies.now }
    requires whole { length lengths.now % 4 ≡ 0 }
    requires fits { 2 * length lengths.now + 10 < 2 ^ 32 }
    requires at { IsAppendReply (sum (lengths_in lengths.now)) replies.now }
    ensures { let out_old = W.contents out.old in
        let payload = records_payload (lengths_in lengths.now) replies.now in
        WritesAnswer (IsAnswerWith payload replies.now has_writer sync_failed) out_old
        (W.contents out.new) result }
{
    if tell_refusal(alloc, out, replies, has_writer, sync_failed, cause)? {
        return Ok(());
    }
    match replies {
        [Reply::At(first), others @ ..] => {
            write_records(out, *first, lengths, started_among(others))
        }
        _ => unreachable!(),
    }
}

// What starting a sync answered, where that is the only one of these replies.
fn started_among(replies: &[Reply]) -> Option<StartedSync>
    ensures { started_payload replies.now ≡ started_of result }
{
    match replies {
        [Reply::Started(started)] => Some(*started),
        _ => None,
    }
}

// Writes where each record of these lengths begins, and what starting a sync answered.
#[tactic(auto, unfolding(crate::specs::Request::number_bytes))]
fn write_records<W: Write>(
    out: &mut W,
    first: u64,
    lengths: &[u8],
    started: Option<StartedSync>,
) -> Result<(), Stop>
    requires whole { length lengths.now % 4 ≡ 0 }
    requires fits { 2 * length lengths.now + 10 < 2 ^ 32 }
    requires at { first + sum (lengths_in lengths.now) < 2 ^ 64 }
    ensures { let out_old = W.contents out.old in
        let all = flat_map number_bytes (record_starts first (lengths_in lengths.now)) in
        WritesAnswer (GivesPayload (all ++ started_of started)) out_old (W.contents out.new)
        result }
{
    match started {
        None => write_starts_and(out, first, lengths, &[]),
        Some(StartedSync::Done) => write_starts_and(out, first, lengths, &[0]),
        Some(StartedSync::Named(name)) => {
            let [a, b, c, d, e, f, g, h] = name.to_le_bytes();
            write_starts_and(out, first, lengths, &[1, a, b, c, d, e, f, g, h])
        }
    }
}

// Writes where each record of these lengths begins, and then these bytes.
fn write_starts_and<W: Write>(
    out: &mut W,
    first: u64,
    lengths: &[u8],
    more: &[u8],
) -> Result<(), Stop>
    requires whole { length lengths.now % 4 ≡ 0 }
    requires fits { 2 * length lengths.now + length more.now + 1 < 2 ^ 32 }
    requires at { first + sum (lengths_in lengths.now) < 2 ^ 64 }
    ensures { let out_old = W.contents out.old in
        let all = flat_map number_bytes (record_starts first (lengths_in lengths.now)) in
        WritesAnswer (GivesPayload (all ++ more.now)) out_old (W.contents out.new) result }
{
    write_head(out, 0, 2 * lengths.len() + more.len())?;
    write_starts(out, first, lengths)?;
    put(out, more)
}
