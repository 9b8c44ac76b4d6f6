// The steps of a session, and what they answer.
use crate::calls::say_calls;
use crate::forms::Argument::{Bytes, Flags, Number};
use crate::forms::{Arguments, Form, read_step};
use crate::hostile::try_hostile;
use crate::line::Row;
use crate::stage::Stage;
use crate::subject::{Subject, Tearable};
use crate::words::{
    buffer_size, out_of_memory, say, say_done, say_error, say_size, say_whether, unreadable,
};
use disk::Error;
use page::Sum;
use paged::{Outlook, Verdict};
use scripts::{Hex, Line, ReadError, parse_line};
use session::{Reply, Step};
use std::alloc::Global;
use std::io::Write;
use std::num::NonZeroUsize;
use std::{io, mem};

// What a step asks of a stage that is none of a script's.
#[derive(Clone, Copy)]
enum Verb {
    TryAppend,
    Recover,
    CrashRecover,
    Mark,
    Calls,
    Open,
    Cut,
    Look,
    Survey,
    Load,
    Holds,
    Has,
    DropSnapshot,
    DropReplay,
    Hostile,
}

const STEPS: [Form<Verb>; 16] = [
    (b"try-append", &[Bytes], Verb::TryAppend),
    (b"recover", &[Number], Verb::Recover),
    (b"crash-recover", &[Flags], Verb::CrashRecover),
    (b"mark", &[], Verb::Mark),
    (b"calls", &[], Verb::Calls),
    (b"open", &[], Verb::Open),
    (b"cut", &[Number], Verb::Cut),
    (b"look", &[Number], Verb::Look),
    (b"survey", &[Number, Number], Verb::Survey),
    (b"load", &[Bytes], Verb::Load),
    (b"holds", &[Bytes], Verb::Holds),
    (b"holds", &[Bytes, Bytes], Verb::Holds),
    (b"has", &[Number, Number], Verb::Has),
    (b"drop-snapshot", &[Number], Verb::DropSnapshot),
    (b"drop-replay", &[Number], Verb::DropReplay),
    (b"hostile", &[Number, Number], Verb::Hostile),
];

fn say_outlook(answer: Result<Outlook, Error>, said: &mut Vec<u8>) -> io::Result<()> {
    match answer {
        Ok(told) => write!(
            said,
            "pages {} len {} cut {}",
            told.pages, told.len, told.cut
        ),
        Err(error) => say_error(error, said),
    }
}

// Writes the verdict of a survey, and how many physical bytes must be set aside or a recovery would
// cut.
fn say_survey<H: Sum>(
    stage: &mut Stage<H>,
    buffer_size: NonZeroUsize,
    limit: u64,
    said: &mut Vec<u8>,
) -> io::Result<()> {
    let survey = match stage.survey(buffer_size) {
        Ok(survey) => survey,
        Err(error) => return say_error(error, said),
    };
    let page_size = stage.page_size();
    match survey.verdict(page_size, limit) {
        Verdict::Whole => write!(said, "whole"),
        Verdict::Cut => write!(said, "cut {}", survey.outlook.cut),
        Verdict::Keep => write!(said, "keep {}", survey.set_aside_len(page_size)),
        Verdict::Refuse => write!(said, "refuse {}", survey.outlook.cut),
    }
}

// Begins anew, over a blob of these bytes.
fn load<H: Sum>(
    alloc: Global,
    stage: &mut Stage<H>,
    bytes: &[u8],
    said: &mut Vec<u8>,
) -> io::Result<()> {
    match stage.another(alloc, bytes) {
        Ok(mut other) => {
            mem::swap(stage, &mut other);
            say_done(Ok(()), said)
        }
        Err(error) => say_error(error, said),
    }
}

/// The content of a stage, read through its session; `BlobInsufficientLength` where it is closed.
pub fn content<H: Sum>(stage: &mut Stage<H>) -> Result<Vec<u8>, Error> {
    let len = stage.size() as usize;
    match stage.step(Step::Read(0, len)) {
        Reply::Bytes(bytes) => Ok(bytes),
        Reply::Fault(error) => Err(error),
        _ => Err(Error::BlobInsufficientLength),
    }
}

// What the line `try` of a script asks for. A case has another name for it, since its own line
// `try` begins what is tried.
fn try_append<H: Sum>(
    alloc: Global,
    stage: &mut Stage<H>,
    bytes: &[u8],
    said: &mut Vec<u8>,
) -> io::Result<()> {
    let reply = stage.step(Step::TryAppend(Vec::from_slice(alloc, bytes)?));
    say(&reply, said)
}

// Recovers the blob as it is. Its content must begin with the floor (the durable prefix), and be a
// beginning of the whole, if that is given.
fn holds<H: Sum>(
    stage: &mut Stage<H>,
    floor: &[u8],
    whole: Option<&[u8]>,
    said: &mut Vec<u8>,
) -> io::Result<()> {
    if let Err(error) = stage.recover(NonZeroUsize::MIN) {
        return say_error(error, said);
    }
    match content(stage) {
        Ok(bytes) if is_between(&bytes, floor, whole) => write!(said, "holds"),
        Ok(bytes) => write!(said, "fault has {}", Hex(&bytes)),
        Err(error) => say_error(error, said),
    }
}

/// Whether bytes begin with the floor (the durable prefix), and are a beginning of the whole, if
/// that is given.
pub fn is_between(bytes: &[u8], floor: &[u8], whole: Option<&[u8]>) -> bool {
    let below = match whole {
        Some(whole) => whole.starts_with(bytes),
        None => true,
    };
    bytes.starts_with(floor) && below
}

fn play_line<H: Sum>(stage: &mut Stage<H>, line: Line, said: &mut Vec<u8>) -> io::Result<()> {
    match line {
        Line::Step(step) => {
            let reply = stage.step(step);
            say(&reply, said)
        }
        Line::Fail(number) => {
            stage.fail_at(number.get());
            say(&Reply::Done, said)
        }
        Line::Crash(keep) => say_size("crashed", stage.crash(&keep), said),
        Line::Recover => say_size("recovered", stage.recover(NonZeroUsize::MIN), said),
        Line::Dump => write!(said, "blob {}", Hex(stage.bytes())),
    }
}

fn play_step<H: Sum>(
    alloc: Global,
    stage: &mut Stage<H>,
    step: &[u8],
    said: &mut Vec<u8>,
) -> io::Result<()> {
    match parse_line(alloc, step) {
        Ok(line) => play_line(stage, line, said),
        Err(ReadError::Unreadable) => Err(unreadable()),
        Err(ReadError::OutOfMemory) => Err(out_of_memory()),
    }
}

fn go<H: Sum>(
    alloc: Global,
    stage: &mut Stage<H>,
    verb: Verb,
    words: &Arguments,
    said: &mut Vec<u8>,
) -> io::Result<()> {
    let (first, second, bytes) = (words.number(0), words.number(1), words.bytes());
    let by = buffer_size(first);
    match verb {
        Verb::TryAppend => try_append(alloc, stage, bytes, said),
        Verb::Recover => say_size("recovered", stage.recover(by), said),
        Verb::CrashRecover => { say_size("recovered", stage.crash_and_recover(&words.flags), said) }
        Verb::Mark => {
            stage.mark();
            Ok(())
        }
        Verb::Calls => say_calls(stage.device_calls(), stage.marked(), said),
        Verb::Open => say_size("opened", stage.open(), said),
        Verb::Cut => say_size("size", stage.cut(first), said),
        Verb::Look => say_outlook(stage.look(by), said),
        Verb::Survey => say_survey(stage, by, second, said),
        Verb::Load => load(alloc, stage, bytes, said),
        Verb::Holds => holds(stage, bytes, words.piece(1), said),
        Verb::Has => say_whether(stage.holds(first, second), said),
        Verb::DropSnapshot => say(&stage.step(Step::DropSnapshot(first as usize)), said),
        Verb::DropReplay => say(&stage.step(Step::DropReplay(first as usize)), said),
        Verb::Hostile => try_hostile(alloc, stage, first, second, said),
    }
}

impl<H: Sum> Subject for Stage<H> {
    fn play(&mut self, alloc: Global, row: &Row, said: &mut Vec<u8>) -> io::Result<()> {
        match read_step(alloc, &STEPS, &row.step)? {
            Some((verb, words)) => go(alloc, self, verb, &words, said),
            None => play_step(alloc, self, &row.step, said),
        }
    }

    fn calls(&self) -> usize {
        self.device_calls().len()
    }

    fn say_calls(&self, first: usize, said: &mut Vec<u8>) -> io::Result<()> {
        say_calls(self.device_calls(), first, said)
    }
}
