// A log in segments over a folder in memory.
ghost use Rattle.std.specs.Prelude.{IfOk};
ghost use Rattle.segments.specs.Log.{IsLog};

use crate::files::{Files, Name, say_file_calls, say_name};
use crate::forms::Argument::{Bytes, Flags, Number, Word};
use crate::forms::{Arguments, Form, read_step};
use crate::line::Row;
use crate::memory_folder::{MemoryFile, MemoryFolder, MemorySource, Shared, lent};
use crate::subject::Subject;
use crate::words::{buffer_size, flags, number, page_size, say_bytes, unreadable};
use digest::ShaDigest;
use disk::IoBuf;
use journal::Found;
use page::Sum;
use scripts::Hex;
use segments::{ClosedSegment, Error, Options, Passed, Place, SegmentedLog};
use std::alloc::Global;
use std::cell::RefCell;
use std::io;
use std::io::Write;
use std::marker::Model;
use std::rc::Rc;

type Log<H> = SegmentedLog<MemoryFolder, MemoryFile, H, H, ShaDigest>;

type OldSegment<H> = ClosedSegment<MemorySource, H, H, ShaDigest>;

/// Reads how a log is kept from the words of a `start` line: the logical bytes of a page, those
/// that are buffered, and from how many on a segment is closed. Each opening reads a page at once,
/// and a cache has one page.
pub fn read_options(words: &Arguments) -> io::Result<Options> {
    Ok(Options {
        page_size: page_size(words.number(0))?,
        capacity: words.length(1),
        pages: buffer_size(1),
        buffer_size: buffer_size(1),
        segment_size: words.number(2),
    })
}

// What a step asks of a log.
#[derive(Clone, Copy)]
enum Verb {
    Open,
    Close,
    Append,
    Commit,
    StartCommit,
    Wait,
    Read,
    Records,
    Many,
    Nth,
    Pass,
    Reader,
    ReaderRead,
    ReaderNth,
    ReaderPass,
    Rotate,
    DigestAhead,
    DropBefore,
    Fail,
    Full,
    Crash,
    Files,
    Dump,
    Change,
    Cut,
    Copy,
    Lose,
    Give,
    Torn,
    TornDrop,
    TornOpen,
}

const STEPS: [Form<Verb>; 31] = [
    (b"open", &[], Verb::Open),
    (b"close", &[], Verb::Close),
    (b"append", &[Bytes], Verb::Append),
    (b"commit", &[], Verb::Commit),
    (b"start-commit", &[], Verb::StartCommit),
    (b"wait", &[], Verb::Wait),
    (b"read", &[Number, Number], Verb::Read),
    (b"records", &[], Verb::Records),
    (b"many", &[Number, Number, Number], Verb::Many),
    (b"nth", &[Number, Number], Verb::Nth),
    (b"pass", &[Number, Number], Verb::Pass),
    (b"reader", &[Number], Verb::Reader),
    (b"reader-read", &[Number], Verb::ReaderRead),
    (b"reader-nth", &[Number], Verb::ReaderNth),
    (b"reader-pass", &[Number], Verb::ReaderPass),
    (b"rotate", &[], Verb::Rotate),
    (b"digest-ahead", &[Number], Verb::DigestAhead),
    (b"drop-before", &[Number], Verb::DropBefore),
    (b"fail", &[Number], Verb::Fail),
    (b"full", &[], Verb::Full),
    (b"crash", &[Flags, Word], Verb::Crash),
    (b"files", &[], Verb::Files),
    (b"dump", &[Word], Verb::Dump),
    (b"change", &[Word, Number], Verb::Change),
    (b"cut", &[Word, Number], Verb::Cut),
    (b"copy", &[Word, Word], Verb::Copy),
    (b"lose", &[Word], Verb::Lose),
    (b"give", &[Word, Bytes], Verb::Give),
    (b"torn", &[Bytes], Verb::Torn),
    (b"torn-drop", &[Number], Verb::TornDrop),
    (b"torn-open", &[], Verb::TornOpen),
];

// More flags than a case has bytes that aren't durable, and more calls than an append makes.
const MOST: usize = 4096;

// Which bytes a crash keeps of those that aren't durable.
#[derive(Clone, Copy)]
enum Kept {
    Nothing,
    All,
    EachSecond,
}

// What a crash keeps: the changes of names, and of the bytes.
const CHOICES: [(&[bool], Kept); 6] = [
    (&[], Kept::Nothing),
    (&[], Kept::All),
    (&[], Kept::EachSecond),
    (&[true, true], Kept::Nothing),
    (&[true, true], Kept::All),
    (&[true, true], Kept::EachSecond),
];

fn kept_bytes(alloc: Global, kept: Kept) -> io::Result<Vec<bool>> {
    let mut flags = Vec::new(alloc);
    for index in 0..MOST {
        flags.push(match kept {
            Kept::Nothing => false,
            Kept::All => true,
            Kept::EachSecond => index % 2 == 0,
        })?;
    }
    Ok(flags)
}

/// The files of a folder, and the log in them, if one is open; and a reader of a closed segment, if
/// one was opened.
#[derive(Drop)]
pub struct Logs<H: Sum> {
    options: Options,
    files: Shared,
    log: Option<Log<H>>,
    reader: Option<OldSegment<H>>,
}

impl<H: Sum> Model for Logs<H> {
    ghost use Rattle.std.specs.Prelude.{IfSome};
    ghost use Rattle.segments.specs.Log.{IsLog};

    ghost Value = { Unit {0} };

    ghost view = { λ l. tt };

    ghost invariant = { λ l. IfSome l.log (λ log. IsLog H.sum_of H.sum_of log) };
}

// The file of a name: `manifest`, `copy`, the number of a segment, or that of its list, as
// `0.digests`.
fn file_of(word: Option<&[u8]>) -> io::Result<Name> {
    match word {
        Some(b"manifest") => Ok(Name::Manifest),
        Some(b"copy") => Ok(Name::Copy),
        Some(word) => match word.strip_suffix(b".digests".as_slice()) {
            Some(word) => Ok(Name::List(number(word)?)),
            None => Ok(Name::Segment(number(word)?)),
        },
        None => Err(unreadable()),
    }
}

// The flags that a word is; as many true ones as a case needs for `all`.
fn flags_of(alloc: Global, word: &[u8]) -> io::Result<Vec<bool>> {
    if word == b"all".as_slice() {
        let mut all = Vec::new(alloc);
        all.resize(MOST, true)?;
        return Ok(all);
    }
    flags(alloc, word)
}

fn open_log<H: Sum>(alloc: Global, files: Shared, options: Options) -> Result<Log<H>, Error>
    ensures { IfOk result (λ log. IsLog H.sum_of H.sum_of log) }
{
    SegmentedLog::open(alloc, MemoryFolder::new(files), options)
}

// All records of a log.
fn records_of<H: Sum>(alloc: Global, log: &mut Log<H>) -> Result<Vec<IoBuf>, Error>
    requires { IsLog H.sum_of H.sum_of log.old }
    ensures { IsLog H.sum_of H.sum_of log.new }
{
    let mut records = Vec::new(alloc);
    let mut place = log.start();
    for _ in 0..u64::MAX {
        let Some((_, record)) = log.next(&mut place)? else {
            break;
        };
        records.push(record)?;
    }
    Ok(records)
}

fn say_log_error(error: &Error, said: &mut Vec<u8>) -> io::Result<()> {
    write!(said, "fault {error}")
}

fn say_log_done(answer: Result<(), Error>, said: &mut Vec<u8>) -> io::Result<()> {
    match answer {
        Ok(()) => write!(said, "ok"),
        Err(error) => say_log_error(&error, said),
    }
}

fn say_place(answer: Result<Place, Error>, said: &mut Vec<u8>) -> io::Result<()> {
    match answer {
        Ok(place) => write!(said, "at {} {}", place.segment, place.offset),
        Err(error) => say_log_error(&error, said),
    }
}

fn say_found(found: Result<Option<Found>, Error>, said: &mut Vec<u8>) -> io::Result<()> {
    match found {
        Ok(Some(found)) => {
            match &found.bytes {
                Some(bytes) => write!(said, "record {}", Hex(bytes.as_ref()))?,
                None => write!(said, "frame")?,
            }
            write!(said, " end {}", found.end)
        }
        Ok(None) => write!(said, "none"),
        Err(error) => say_log_error(&error, said),
    }
}

fn say_records(records: Result<Vec<IoBuf>, Error>, said: &mut Vec<u8>) -> io::Result<()> {
    match records {
        Ok(records) => {
            write!(said, "records")?;
            for record in &records {
                write!(said, " {}", Hex(record.as_ref()))?;
            }
            Ok(())
        }
        Err(error) => say_log_error(&error, said),
    }
}

// Writes each record with its place, and the place behind them.
fn say_many(
    found: Result<Vec<(Place, IoBuf)>, Error>,
    behind: Place,
    said: &mut Vec<u8>,
) -> io::Result<()> {
    match found {
        Ok(found) => {
            write!(said, "many")?;
            for (place, record) in &found {
                let (segment, offset) = (place.segment, place.offset);
                write!(said, " {segment} {offset} {}", Hex(record.as_ref()))?;
            }
            write!(said, " end {} {}", behind.segment, behind.offset)
        }
        Err(error) => say_log_error(&error, said),
    }
}

// Writes where a frame begins, if there is one.
fn say_place_of(place: Result<Option<Place>, Error>, said: &mut Vec<u8>) -> io::Result<()> {
    match place {
        Ok(Some(place)) => say_place(Ok(place), said),
        Ok(None) => write!(said, "none"),
        Err(error) => say_log_error(&error, said),
    }
}

// The same by its offset alone.
fn say_offset(offset: Result<Option<u64>, Error>, said: &mut Vec<u8>) -> io::Result<()> {
    match offset {
        Ok(Some(offset)) => write!(said, "at {offset}"),
        Ok(None) => write!(said, "none"),
        Err(error) => say_log_error(&error, said),
    }
}

// Writes what was passed: how many frames, if that is known, and how many bytes.
fn say_passed(passed: Result<Passed, Error>, said: &mut Vec<u8>) -> io::Result<bool> {
    match passed {
        Ok(passed) => {
            write!(said, "passed {}", passed.bytes)?;
            if let Some(frames) = passed.frames {
                write!(said, " frames {frames}")?;
            }
            Ok(true)
        }
        Err(error) => {
            say_log_error(&error, said)?;
            Ok(false)
        }
    }
}

// Writes the files with their sizes: the manifest, its copy, the segments, and then the lists.
fn say_files(files: &Files, said: &mut Vec<u8>) -> io::Result<()> {
    write!(said, "files")?;
    for name in [Name::Manifest, Name::Copy] {
        if let Ok(bytes) = files.bytes(name) {
            write!(said, " ")?;
            say_name(name, said)?;
            write!(said, ":{}", bytes.len())?;
        }
    }
    for (number, len) in files.segments()? {
        write!(said, " {number}:{len}")?;
    }
    for (number, len) in files.lists()? {
        write!(said, " {number}.digests:{len}")?;
    }
    Ok(())
}

// A step of a log at a place in a segment, or about a frame of it by its number.
fn go_at<H: Sum>(
    log: &mut Log<H>,
    verb: Verb,
    words: &Arguments,
    said: &mut Vec<u8>,
) -> io::Result<()>
    requires log { IsLog H.sum_of H.sum_of log.old }
    ensures log { IsLog H.sum_of H.sum_of log.new }
{
    let (segment, offset) = (words.number(0), words.number(1));
    let mut place = Place { segment, offset };
    match verb {
        Verb::Read => say_found(log.read(place), said),
        Verb::Many => {
            let found = log.next_many(&mut place, words.length(2));
            say_many(found, place, said)
        }
        Verb::Nth => say_place_of(log.nth(segment, offset), said),
        _ => {
            if say_passed(log.pass_damage(&mut place), said)? {
                write!(said, " to {} {}", place.segment, place.offset)?;
            }
            Ok(())
        }
    }
}

// What is done to a log while a call fails.
#[derive(Clone, Copy)]
enum Act<'a> {
    // A record is appended and committed, unless it is longer than a record may be.
    Append(&'a [u8]),
    DropBefore(u64),
    // The log is opened.
    Open,
}

// Does it, to a log that was opened.
fn act_on<H: Sum>(log: &mut Log<H>, act: Act<'_>) -> Result<(), Error>
    requires log { IsLog H.sum_of H.sum_of log.old }
    ensures log { IsLog H.sum_of H.sum_of log.new }
{
    match act {
        Act::Append(bytes) if bytes.len() <= 65535 => {
            log.append(bytes)?;
            log.commit()
        }
        Act::DropBefore(segment) => log.drop_before(segment),
        _ => Ok(()),
    }
}

// Which call fails, counted from 1, and whether each later one does.
#[derive(Clone, Copy)]
struct Failing {
    call: usize,
    is_for_good: bool,
}

// What was done while a call failed, and the records after a crash.
#[derive(Drop)]
struct Torn {
    // Whether the call that was to fail was made.
    has_failed: bool,
    // Whether what was done answered `Ok`.
    is_done: bool,
    records: Vec<IoBuf>,
}

fn are_same(one: &[IoBuf], other: &[IoBuf]) -> bool {
    let mut pairs = one.iter().zip(other);
    one.len() == other.len() && pairs.all(|(one, other)| one.as_ref() == other.as_ref())
}

// The records before something is done, and after it was done with no call failing.
#[derive(Drop)]
struct Around {
    before: Vec<IoBuf>,
    after: Vec<IoBuf>,
}

impl Around {
    // Whether a crash may leave these: those before, unless it answered `Ok`, or those after it.
    fn may_leave(&self, torn: &Torn) -> bool {
        let is_undone = !torn.is_done && are_same(&torn.records, &self.before);
        is_undone || are_same(&torn.records, &self.after)
    }
}

impl<H: Sum> Logs<H> {
    /// A folder without files, and no log.
    pub fn new(alloc: Global, options: io::Result<Options>) -> io::Result<Box<Self>> {
        let options = options?;
        let files = Rc::new(alloc, RefCell::new(Files::new(alloc)))?;
        Ok(Box::new(
            alloc,
            Logs {
                options,
                files,
                log: None,
                reader: None,
            },
        )?)
    }

    fn open(&mut self, alloc: Global, said: &mut Vec<u8>) -> io::Result<()> {
        self.log = None;
        match open_log::<H>(alloc, self.files.clone()?, self.options) {
            Ok(log) => {
                write!(said, "opened {}", log.len().unwrap_or(u64::MAX))?;
                let (first, last) = (log.first_segment(), log.last_segment());
                self.log = Some(log);
                write!(said, " in {first} to {last}")
            }
            Err(error) => say_log_error(&error, said),
        }
    }

    // A step of an open log.
    fn go(
        &mut self,
        alloc: Global,
        verb: Verb,
        words: &Arguments,
        said: &mut Vec<u8>,
    ) -> io::Result<()> {
        let first = words.number(0);
        let bytes = words.bytes();
        let Some(log) = &mut self.log else {
            return write!(said, "closed");
        };
        match verb {
            Verb::Append if bytes.len() <= 65535 => say_place(log.append(bytes), said),
            Verb::Commit => say_log_done(log.commit(), said),
            Verb::StartCommit => match log.start_commit() {
                Ok(_) => write!(said, "ok"),
                Err(error) => say_log_error(&error, said),
            },
            Verb::Wait => say_log_done(log.wait_for_commit(), said),
            Verb::Read | Verb::Many | Verb::Nth | Verb::Pass => go_at::<H>(log, verb, words, said),
            Verb::Records => say_records(records_of::<H>(alloc, log), said),
            Verb::Reader => match log.closed_reader(first) {
                Ok(reader) => {
                    self.reader = Some(reader);
                    write!(said, "ok")
                }
                Err(error) => say_log_error(&error, said),
            },
            Verb::Rotate => say_log_done(log.rotate(), said),
            Verb::DigestAhead => say_log_done(log.digest_ahead(first), said),
            Verb::DropBefore => say_log_done(log.drop_before(first), said),
            _ => Err(unreadable()),
        }
    }

    // A step of the reader that was opened last, whether the log is open or not: `number` is an
    // offset, or which frame is asked for.
    fn read_by(&mut self, verb: Verb, number: u64, said: &mut Vec<u8>) -> io::Result<()> {
        let Some(old) = &mut self.reader else {
            return write!(said, "closed");
        };
        match verb {
            Verb::ReaderNth => say_offset(old.nth(number), said),
            Verb::ReaderPass => {
                let mut offset = number;
                if say_passed(old.pass_damage(&mut offset), said)? {
                    write!(said, " to {offset}")?;
                }
                Ok(())
            }
            _ => say_found(old.read(number), said),
        }
    }

    // What somebody else does to the files.
    fn harm(&mut self, verb: Verb, words: &Arguments) -> io::Result<()> {
        let name = file_of(words.piece(0))?;
        let mut files = lent(&self.files)?;
        if !files.has(name) {
            return Err(unreadable());
        }
        let mut bytes = files.bytes(name)?;
        let at = words.length(0);
        match verb {
            Verb::Lose => {
                files.lose(name);
                return Ok(());
            }
            Verb::Copy => return files.replace(file_of(words.piece(1))?, &bytes),
            Verb::Cut => bytes.resize(at.min(MOST), 0)?,
            _ => {
                if let Some(byte) = bytes.get_mut(at) {
                    *byte ^= 1;
                }
            }
        }
        files.replace(name, &bytes)
    }

    fn crash(&mut self, alloc: Global, words: &Arguments) -> io::Result<()> {
        self.log = None;
        let bytes = flags_of(alloc, words.bytes())?;
        lent(&self.files)?.crash(&words.flags, &bytes)
    }

    // Does something to a copy of the log while a call fails. Answers the copy, and whether that
    // answered `Ok`.
    fn act_once(
        &self,
        alloc: Global,
        act: Act<'_>,
        failing: Failing,
    ) -> Result<(Shared, bool), Error> {
        let copy = lent(&self.files)?.copy()?;
        let files: Shared = Rc::new(alloc, RefCell::new(copy))?;
        let Failing { call, is_for_good } = failing;
        if let Act::Open = act {
            lent(&files)?.fail_at(call, is_for_good);
            let is_done = open_log::<H>(alloc, files.clone()?, self.options).is_ok();
            return Ok((files, is_done));
        }
        let mut log = open_log::<H>(alloc, files.clone()?, self.options)?;
        lent(&files)?.fail_at(call, is_for_good);
        let is_done = act_on::<H>(&mut log, act).is_ok();
        Ok((files, is_done))
    }

    // Does it while a call fails. Then all crashes with these flags, and is opened again.
    fn tear_once(
        &self,
        alloc: Global,
        act: Act<'_>,
        failing: Failing,
        names: &[bool],
        bytes: &[bool],
    ) -> Result<Torn, Error> {
        let (files, is_done) = self.act_once(alloc, act, failing)?;
        let has_failed = lent(&files)?.has_failed();
        lent(&files)?.crash(names, bytes)?;
        let mut log = open_log::<H>(alloc, files, self.options)?;
        Ok(Torn {
            has_failed,
            is_done,
            records: records_of::<H>(alloc, &mut log)?,
        })
    }

    // The same for each choice of what the crash keeps: the names or not, and of the bytes none,
    // all, or each second one. Answers whether the call was made; `None` after it has written which
    // crash leaves other records than those before or after.
    fn tear_call(
        &self,
        alloc: Global,
        act: Act<'_>,
        failing: Failing,
        around: &Around,
        said: &mut Vec<u8>,
    ) -> io::Result<Option<bool>> {
        let mut has_failed = false;
        let Failing { call, is_for_good } = failing;
        for (choice, (names, bytes)) in CHOICES.iter().enumerate() {
            let bytes = kept_bytes(alloc, *bytes)?;
            let torn = self.tear_once(alloc, act, failing, names, &bytes);
            match torn {
                Ok(torn) if around.may_leave(&torn) => has_failed = torn.has_failed,
                Ok(torn) => {
                    write!(said, "fault call {call} {is_for_good} choice {choice}: ")?;
                    say_records(Ok(torn.records), said)?;
                    return Ok(None);
                }
                Err(error) => {
                    write!(
                        said,
                        "fault call {call} {is_for_good} choice {choice}: {error}"
                    )?;
                    return Ok(None);
                }
            }
        }
        Ok(Some(has_failed))
    }

    // The records before it is done, and after it.
    fn around(&self, alloc: Global, act: Act<'_>) -> Result<Around, Error> {
        let none = Failing {
            call: MOST,
            is_for_good: false,
        };
        let before = self.tear_once(alloc, Act::Open, none, &[], &[])?;
        let after = self.tear_once(alloc, act, none, &[], &[])?;
        Ok(Around {
            before: before.records,
            after: after.records,
        })
    }

    // Does something once for each of its calls, with that call failing, and once more with each
    // later one failing too. Writes how many calls there are.
    fn tear(&mut self, alloc: Global, act: Act<'_>, said: &mut Vec<u8>) -> io::Result<()> {
        self.log = None;
        let around = match self.around(alloc, act) {
            Ok(around) => around,
            Err(error) => return say_log_error(&error, said),
        };
        for call in 1..MOST {
            for is_for_good in [false, true] {
                let failing = Failing { call, is_for_good };
                match self.tear_call(alloc, act, failing, &around, said)? {
                    Some(false) => return write!(said, "calls {}", call - 1),
                    Some(true) => {}
                    None => return Ok(()),
                }
            }
        }
        Ok(())
    }

    // A step about the files as they are, or about how they answer from then on.
    fn on_files(&mut self, verb: Verb, words: &Arguments, said: &mut Vec<u8>) -> io::Result<()> {
        match verb {
            Verb::Files => return say_files(&*lent(&self.files)?, said),
            Verb::Dump => {
                return match lent(&self.files)?.bytes(file_of(words.piece(0))?) {
                    Ok(bytes) => say_bytes("blob", &bytes, said),
                    Err(_) => write!(said, "none"),
                };
            }
            Verb::Fail => lent(&self.files)?.fail_at(words.length(0), false),
            Verb::Full => lent(&self.files)?.fill(),
            _ => {
                let bytes = words.piece(1).unwrap_or_default();
                lent(&self.files)?.give(file_of(words.piece(0))?, bytes)?;
            }
        }
        write!(said, "ok")
    }
}

impl<H: Sum> Subject for Logs<H> {
    fn play(&mut self, alloc: Global, row: &Row, said: &mut Vec<u8>) -> io::Result<()> {
        let Some((verb, words)) = read_step(alloc, &STEPS, &row.step)? else {
            return Err(unreadable());
        };
        match verb {
            Verb::Open => self.open(alloc, said),
            Verb::Close => {
                self.log = None;
                write!(said, "ok")
            }
            Verb::Crash => {
                self.crash(alloc, &words)?;
                write!(said, "ok")
            }
            Verb::ReaderRead | Verb::ReaderNth | Verb::ReaderPass => {
                self.read_by(verb, words.number(0), said)
            }
            Verb::Fail | Verb::Full | Verb::Files | Verb::Dump | Verb::Give => {
                self.on_files(verb, &words, said)
            }
            Verb::Change | Verb::Cut | Verb::Copy | Verb::Lose => {
                self.harm(verb, &words)?;
                write!(said, "ok")
            }
            Verb::Torn => self.tear(alloc, Act::Append(words.bytes()), said),
            Verb::TornDrop => self.tear(alloc, Act::DropBefore(words.number(0)), said),
            Verb::TornOpen => self.tear(alloc, Act::Open, said),
            _ => self.go(alloc, verb, &words, said),
        }
    }

    fn calls(&self) -> usize {
        match lent(&self.files) {
            Ok(files) => files.calls().len(),
            Err(_) => 0,
        }
    }

    fn say_calls(&self, first: usize, said: &mut Vec<u8>) -> io::Result<()> {
        say_file_calls(lent(&self.files)?.calls(), first, said)
    }
}
