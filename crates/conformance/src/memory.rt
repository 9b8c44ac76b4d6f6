// The blob in memory that fails and crashes, by its own calls.
use crate::alike::try_alike;
use crate::calls::say_calls;
use crate::devices::{DURABLE, buffers, play_call};
use crate::forms::Argument::{Flags, Number, Pieces};
use crate::forms::{Arguments, Form, read_step};
use crate::line::Row;
use crate::opened::{say_opened_read, say_opened_scan};
use crate::searches::{say_last_pages, say_range, say_scan, say_tail};
use crate::subject::Subject;
use crate::words::{buffer_size, out_of_memory, page_size, say_bytes, say_done};
use disk::{Blob, Error, MemBlob, StartedRead, VecBlob};
use std::alloc::Global;
use std::io;
use std::io::Write;

// What a step asks of the blob alone.
#[derive(Clone, Copy)]
enum Verb {
    Fail,
    Crash,
    Backwards,
    Forward,
    Dump,
    Calls,
    Failures,
    WriteDurably,
    Alike,
}

const STEPS: [Form<Verb>; 9] = [
    (b"fail", &[Number], Verb::Fail),
    (b"crash", &[Flags], Verb::Crash),
    (b"backwards", &[], Verb::Backwards),
    (b"forward", &[], Verb::Forward),
    (b"dump", &[], Verb::Dump),
    (b"calls", &[], Verb::Calls),
    (b"failures", &[], Verb::Failures),
    (b"write-durable", &[Number, Pieces], Verb::WriteDurably),
    (b"alike", &[Number, Number], Verb::Alike),
];

// What a step asks of the pages of the blob.
#[derive(Clone, Copy)]
enum Search {
    Scan,
    LastPages,
    Range,
    Tail,
    OpenScan,
    OpenRead,
}

const SEARCHES: [Form<Search>; 6] = [
    (b"scan", &[Number, Number], Search::Scan),
    (b"last-pages", &[Number], Search::LastPages),
    (b"range", &[Number, Number, Number], Search::Range),
    (b"tail", &[Number, Number, Number], Search::Tail),
    (b"open-scan", &[Number, Number], Search::OpenScan),
    (b"open-read", &[Number, Number, Number], Search::OpenRead),
];

/// A blob in memory, and the read that was started last.
#[derive(Drop)]
pub struct Memory {
    blob: MemBlob,
    started: Option<StartedRead>,
}

impl Memory {
    /// A blob of these bytes, all durable.
    pub fn new(alloc: Global, bytes: &[u8]) -> io::Result<Box<Memory>> {
        let Ok(blob) = MemBlob::from_bytes(alloc, bytes) else {
            return Err(out_of_memory());
        };
        Ok(Box::new(
            alloc,
            Memory {
                blob,
                started: None,
            },
        )?)
    }

    fn write_durably(
        &mut self,
        alloc: Global,
        offset: u64,
        pieces: &[Vec<u8>],
    ) -> Result<(), Error> {
        self.blob
            .write_at(offset, &buffers(alloc, pieces)?, DURABLE)
    }

    // Makes the same calls of this blob and of a plain one.
    fn try_alike(
        &mut self,
        alloc: Global,
        seed: u64,
        count: u64,
        said: &mut Vec<u8>,
    ) -> io::Result<()> {
        let mut other = VecBlob::from_vec(Vec::from_slice(alloc, self.blob.bytes())?);
        try_alike(alloc, &mut self.blob, &mut other, seed, count, said)?;
        if self.blob.bytes() == other.bytes() {
            return Ok(());
        }
        write!(said, ", but fault in the bytes")
    }

    fn go(
        &mut self,
        alloc: Global,
        verb: Verb,
        words: &Arguments,
        said: &mut Vec<u8>,
    ) -> io::Result<()> {
        let (first, second) = (words.number(0), words.number(1));
        let blob = &mut self.blob;
        match verb {
            Verb::Fail => {
                blob.fail_at(first.max(1));
                say_done(Ok(()), said)
            }
            Verb::Crash => say_done(blob.crash(&words.flags), said),
            Verb::Backwards => {
                blob.deliver_backwards(true);
                say_done(Ok(()), said)
            }
            Verb::Forward => {
                blob.deliver_backwards(false);
                say_done(Ok(()), said)
            }
            Verb::Dump => say_bytes("blob", blob.bytes(), said),
            Verb::Calls => say_calls(blob.calls(), 0, said),
            Verb::Failures => write!(said, "failures {}", blob.failures()),
            Verb::WriteDurably => say_done(self.write_durably(alloc, first, &words.pieces), said),
            Verb::Alike => self.try_alike(alloc, first, second, said),
        }
    }
}

// Writes what a search finds, or a read answers, over pages of so many logical bytes.
fn say_search(
    alloc: Global,
    blob: &mut MemBlob,
    search: Search,
    words: &Arguments,
    said: &mut Vec<u8>,
) -> io::Result<()> {
    let size = page_size(words.number(0))?;
    let (second, third) = (words.number(1), words.length(2));
    match search {
        Search::Scan => say_scan(alloc, blob, size, buffer_size(second), said),
        Search::LastPages => say_last_pages(alloc, blob, size, said),
        Search::Range => say_range(alloc, blob, size, second, third, said),
        Search::Tail => say_tail(alloc, blob, size, second, third, said),
        Search::OpenScan => say_opened_scan(alloc, blob, size, second, said),
        Search::OpenRead => say_opened_read(alloc, blob, size, second, third, said),
    }
}

impl Subject for Memory {
    fn play(&mut self, alloc: Global, row: &Row, said: &mut Vec<u8>) -> io::Result<()> {
        if let Some((verb, words)) = read_step(alloc, &STEPS, &row.step)? {
            return self.go(alloc, verb, &words, said);
        }
        match read_step(alloc, &SEARCHES, &row.step)? {
            Some((verb, words)) => say_search(alloc, &mut self.blob, verb, &words, said),
            None => play_call(alloc, &mut self.blob, &mut self.started, &row.step, said),
        }
    }

    fn calls(&self) -> usize {
        self.blob.calls().len()
    }

    fn say_calls(&self, first: usize, said: &mut Vec<u8>) -> io::Result<()> {
        say_calls(self.blob.calls(), first, said)
    }
}
