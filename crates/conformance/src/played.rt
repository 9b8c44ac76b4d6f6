// Scripts, and what is written for them.
use crate::forms::Argument::Bytes;
use crate::forms::{Form, read_step};
use crate::line::Row;
use crate::subject::Subject;
use crate::words::{is_refusal, unreadable};
use scripts::play_on;
use std::alloc::Global;
use std::io;
use std::io::Write;

// What a step asks for: to play the script below it, to play its own script, or to name the line
// for which its own can't be read.
#[derive(Clone, Copy)]
enum Verb {
    Given,
    Script,
    Names,
}

const STEPS: [Form<Verb>; 3] = [
    (b"script", &[], Verb::Given),
    (b"script", &[Bytes], Verb::Script),
    (b"names", &[Bytes], Verb::Names),
];

/// What plays whole scripts, each over a blob of its own.
#[derive(Clone, Copy)]
pub struct Scripts;

// Adds a text if it isn't the one that is wanted.
fn say_other(word: &str, text: &[u8], wanted: &[u8], said: &mut Vec<u8>) -> io::Result<()> {
    if text == wanted {
        return Ok(());
    }
    writeln!(said, ", but {word}")?;
    said.extend_from_slice(text)?;
    Ok(())
}

// Plays a script. Writes its status, and what the script wrote, if that isn't what the line wants.
fn play_script(alloc: Global, mut script: &[u8], row: &Row, said: &mut Vec<u8>) -> io::Result<()> {
    let mut out = Vec::new(alloc);
    let mut errors = Vec::new(alloc);
    let status = play_on(alloc, &mut script, &mut out, &mut errors);
    write!(said, "status {status}")?;
    say_other("wrote", &out, &row.wanted, said)?;
    say_other("said of errors", &errors, &row.errors, said)
}

fn count_lines(text: &[u8]) -> usize {
    text.iter().filter(|byte| **byte == b'\n').count()
}

fn first_line(text: &[u8]) -> &[u8] {
    text.split(|byte| *byte == b'\n').next().unwrap_or(text)
}

// Writes for which line a script can't be read, if the script wrote nothing except that and one
// line more of errors.
fn name_line(alloc: Global, mut script: &[u8], said: &mut Vec<u8>) -> io::Result<()> {
    let mut out = Vec::new(alloc);
    let mut errors = Vec::new(alloc);
    let status = play_on(alloc, &mut script, &mut out, &mut errors);
    match errors.strip_prefix(b"unreadable ") {
        Some(rest) if status == 2 && out.is_empty() && count_lines(rest) == 2 => {
            said.extend_from_slice(first_line(rest))?;
            Ok(())
        }
        _ => write!(said, "fault status {status}"),
    }
}

// Whether the lines that were written are the wanted ones, up to the first reply to a refused
// request for memory.
fn go_to_refusal(text: &[u8], wanted: &[u8]) -> bool {
    let wanted = wanted.split(|byte| *byte == b'\n');
    for (line, want) in text.split(|byte| *byte == b'\n').zip(wanted) {
        if is_refusal(line) {
            return true;
        }
        if line != want {
            return false;
        }
    }
    true
}

const STOPPED: &[u8] = b", but said of errors\npagedctl: stopped\n";

// Whether a script ended as one does to which memory is refused: with that reply to a step, with
// status 1 as it was read or its replies were written, or without the line that explains why it
// can't be read.
fn is_refused(row: &Row, said: &[u8]) -> bool {
    if let Some(text) = said.strip_prefix(b"status 0, but wrote\n") {
        return go_to_refusal(text, &row.wanted);
    }
    if let Some(text) = said.strip_prefix(b"status 1, but wrote\n") {
        return match text.strip_suffix(STOPPED) {
            Some(text) => row.wanted.starts_with(text),
            None => false,
        };
    }
    said.starts_with(b"status 1, but said of errors\npagedctl: stopped")
        || said.starts_with(b"status 2, but said of errors\n")
        || said.starts_with(b"fault status ")
}

impl Subject for Scripts {
    fn play(&mut self, alloc: Global, row: &Row, said: &mut Vec<u8>) -> io::Result<()> {
        match read_step(alloc, &STEPS, &row.step)? {
            Some((Verb::Given, _)) => play_script(alloc, &row.given, row, said),
            Some((Verb::Script, words)) => play_script(alloc, words.bytes(), row, said),
            Some((Verb::Names, words)) => name_line(alloc, words.bytes(), said),
            None => Err(unreadable()),
        }
    }

    fn tells_refusal(&self, row: &Row, said: &[u8]) -> bool {
        is_refused(row, said)
    }
}
