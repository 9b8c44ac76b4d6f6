// What a case is about.
use crate::line::Row;
use crate::refuse::{refuse, was_refused};
use crate::words::is_refusal;
use disk::{Call, Error};
use std::alloc::Global;
use std::io;
use std::io::{ErrorKind, Write};

/// What a case is about: it plays the steps of its lines.
pub trait Subject {
    /// Plays the step of a line, and writes what it answers. `InvalidInput` if the line can't be
    /// read.
    fn play(&mut self, alloc: Global, row: &Row, said: &mut Vec<u8>) -> io::Result<()>;

    /// Whether a reply shows that a request for memory was refused.
    fn tells_refusal(&self, _row: &Row, said: &[u8]) -> bool {
        is_refusal(said)
    }

    /// How many device calls there were: 0 for a subject without a device that lists them.
    fn calls(&self) -> usize {
        0
    }

    /// Writes the device calls from the index `first` on.
    fn say_calls(&self, _first: usize, said: &mut Vec<u8>) -> io::Result<()> {
        write!(said, "none")
    }
}

/// A subject over a blob in memory, whose device calls can be made to fail and which can crash.
pub trait Tearable: Subject {
    /// The device call of this index, across crashes, if there were so many.
    fn call_at(&self, index: usize) -> Option<&Call>;

    /// Makes the nth device call from now on fail. With n = 0 it is the next one, as with 1.
    fn fail_at(&mut self, n: u64);

    /// Crashes, with these flags for what isn't durable. Nothing is open then.
    fn tear(&mut self, keep: &[bool]) -> Result<(), Error>;
}

// Plays the step of a line. For a line that can't be read it writes `fault unreadable`.
fn answer<S: Subject>(
    alloc: Global,
    subject: &mut S,
    row: &Row,
    said: &mut Vec<u8>,
) -> io::Result<()> {
    let Err(error) = subject.play(alloc, row, said) else {
        return Ok(());
    };
    if error.kind() != ErrorKind::InvalidInput {
        return Err(error);
    }
    said.clear();
    write!(said, "fault unreadable")
}

fn tell(row: &Row, word: &str, want: &[u8], got: &[u8], told: &mut Vec<u8>) -> io::Result<()> {
    writeln!(told, "  line {}: {word}", row.number)?;
    told.extend_from_slice(b"    expected ")?;
    told.extend_from_slice(want)?;
    told.extend_from_slice(b"\n    got ")?;
    told.extend_from_slice(got)?;
    told.extend_from_slice(b"\n")?;
    Ok(())
}

/// Whether a reply is the one that the line expects, or no fault, if the line has no reply.
pub fn is_as_told(row: &Row, said: &[u8]) -> bool {
    match &row.reply {
        Some(want) => want.as_slice() == said,
        None => !said.starts_with(b"fault"),
    }
}

fn compare_reply(row: &Row, said: &[u8], told: &mut Vec<u8>) -> io::Result<()> {
    if is_as_told(row, said) {
        return Ok(());
    }
    match &row.reply {
        Some(want) => tell(row, "reply", want, said, told),
        None => tell(row, "reply", b"no fault", said, told),
    }
}

fn compare_calls<S: Subject>(
    alloc: Global,
    subject: &S,
    row: &Row,
    first: usize,
    told: &mut Vec<u8>,
) -> io::Result<()> {
    let Some(want) = &row.calls else {
        return Ok(());
    };
    let mut got = Vec::new(alloc);
    subject.say_calls(first, &mut got)?;
    if got.as_slice() == want.as_slice() {
        return Ok(());
    }
    tell(row, "device calls", want, &got, told)
}

fn play_and_compare<S: Subject>(
    alloc: Global,
    subject: &mut S,
    row: &Row,
    told: &mut Vec<u8>,
) -> io::Result<()> {
    let first = subject.calls();
    let mut said = Vec::new(alloc);
    answer(alloc, subject, row, &mut said)?;
    compare_reply(row, &said, told)?;
    compare_calls(alloc, subject, row, first, told)
}

/// Plays lines, and writes each difference from what they expect.
pub fn play_all<S: Subject>(
    alloc: Global,
    subject: &mut S,
    rows: &[Row],
    told: &mut Vec<u8>,
) -> io::Result<()> {
    for row in rows {
        play_and_compare(alloc, subject, row, told)?;
    }
    Ok(())
}

/// Plays lines of which one may be refused, and keeps the first reply that isn't as expected.
pub fn play_refused<S: Subject>(
    alloc: Global,
    subject: &mut S,
    rows: &[Row],
    fault: &mut Vec<u8>,
) -> io::Result<()> {
    for row in rows {
        let mut said = Vec::new(alloc);
        answer(alloc, subject, row, &mut said)?;
        if fault.is_empty() && !is_as_told(row, &said) {
            fault.extend_from_slice(&said)?;
        }
    }
    Ok(())
}

// Whether the reply says how many of several recoveries went well: one that was refused memory is
// none of them.
fn tells_how_many(said: &[u8]) -> bool {
    said.starts_with(b"read again")
}

// Plays lines up to the first whose reply isn't as expected, and answers that line and those after
// it.
fn play_to_fault<'a, S: Subject>(
    alloc: Global,
    subject: &mut S,
    rows: &'a [Row],
    fault: &mut Vec<u8>,
) -> io::Result<&'a [Row]> {
    for (index, row) in rows.iter().enumerate() {
        let mut said = Vec::new(alloc);
        answer(alloc, subject, row, &mut said)?;
        if !is_as_told(row, &said) && !tells_how_many(&said) {
            fault.extend_from_slice(&said)?;
            return Ok(rows.get(index..).unwrap_or(&[]));
        }
    }
    Ok(&[])
}

// Whether a line works on the blob itself, which may have changed before the line was refused, or
// makes a device call fail.
fn can_change(row: &Row) -> bool {
    row.step.starts_with(b"cut")
        || row.step.starts_with(b"open")
        || row.step.starts_with(b"recover")
        || row.step.starts_with(b"fail")
}

// Plays the line that was refused once more, and those after it. Unless the refusal ended the
// writer, nothing has changed, and these lines answer as they expect.
fn play_again<S: Subject>(
    alloc: Global,
    subject: &mut S,
    rows: &[Row],
    told: &mut Vec<u8>,
) -> io::Result<()> {
    for row in rows {
        let mut said = Vec::new(alloc);
        answer(alloc, subject, row, &mut said)?;
        if said.as_slice() == b"closed".as_slice() {
            return Ok(());
        }
        compare_reply(row, &said, told)?;
    }
    Ok(())
}

/// Plays lines while the request for memory of this number, from 1 on, is refused. The first reply
/// that isn't as expected must be that refusal. With `again`, the refused line and those after it
/// are then played once more, unless a line works on the blob itself. If the request was one of the
/// player itself, the lines end there. Answers whether a request was refused.
pub fn play_refusing<S: Subject>(
    alloc: Global,
    subject: &mut S,
    rows: &[Row],
    refuses: u32,
    again: bool,
    told: &mut Vec<u8>,
) -> io::Result<bool> {
    let mut fault = Vec::with_capacity(alloc, 256)?;
    refuse(alloc, refuses);
    let played = play_to_fault(alloc, subject, rows, &mut fault);
    if !was_refused(alloc) {
        return Ok(false);
    }
    let Ok(rest) = played else {
        return Ok(true);
    };
    match rest.first() {
        Some(row) if !subject.tells_refusal(row, &fault) => {
            writeln!(told, "  a refused request answers")?;
            told.extend_from_slice(&fault)?;
            writeln!(told)?;
        }
        Some(_) if again && !rows.iter().any(can_change) => {
            play_again(alloc, subject, rest, told)?;
        }
        _ => {}
    }
    Ok(true)
}
