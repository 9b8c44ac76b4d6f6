// Two sessions on one cache.
use crate::calls::say_calls;
use crate::forms::Argument::Number;
use crate::forms::{Form, read_step};
use crate::line::Row;
use crate::subject::Subject;
use crate::words::{out_of_memory, say, say_size, say_whether, unreadable};
use cache::CacheRef;
use disk::{Blob, Error, MemBlob};
use page::Sum;
use scripts::{Hex, Line, ReadError, parse_line};
use session::{Reply, Session, Step, run};
use std::alloc::Global;
use std::io::Write;
use std::marker::Model;
use std::num::{NonZeroU16, NonZeroUsize};
use std::{io, mem};

// What a step asks of both sessions.
#[derive(Clone, Copy)]
enum Verb {
    Other,
    Has,
    Len,
}

const STEPS: [Form<Verb>; 3] = [
    (b"other", &[], Verb::Other),
    (b"has", &[Number, Number], Verb::Has),
    (b"len", &[], Verb::Len),
];

/// Two blobs in memory on one cache, and a session on each. Steps go to the first of them, until
/// the two are exchanged. It is handed out in a box.
pub struct Pair<H: Sum> {
    alloc: Global,
    capacity: usize,
    cache: CacheRef,
    blob: MemBlob,
    session: Session<MemBlob, H>,
    other_blob: MemBlob,
    other: Session<MemBlob, H>,
}

// By hand, so that an owner lets one go by one call: of a derived drop, a proof follows each field
// at each exit.
impl<H: Sum> Drop for Pair<H> {
    fn drop(self) {
        let Pair {
            alloc: _,
            capacity: _,
            cache: _,
            blob: _,
            session: _,
            other_blob: _,
            other: _,
        } = self;
    }
}

impl<H: Sum> Model for Pair<H> {
    ghost use Rattle.disk.specs.History.{life_of};
    ghost use Rattle.conformance.specs.Pair.{AreBothReady};

    ghost Value = { Unit {0} };

    ghost view = { λ s. tt };

    ghost invariant = { λ s. AreBothReady H.sum_of s.session s.other s.cache
        (life_of s.blob).present (life_of s.other_blob).present };
}

impl<H: Sum> Pair<H> {
    /// Two empty blobs, and no writer.
    pub fn new(
        alloc: Global,
        page_size: NonZeroU16,
        capacity: usize,
        pages: NonZeroUsize,
    ) -> io::Result<Box<Pair<H>>> {
        let Ok(cache) = CacheRef::new(alloc, page_size, pages) else {
            return Err(out_of_memory());
        };
        let pair = Pair {
            alloc,
            capacity,
            cache,
            blob: MemBlob::new(alloc),
            session: Session::closed(alloc),
            other_blob: MemBlob::new(alloc),
            other: Session::closed(alloc),
        };
        Ok(Box::new(alloc, pair)?)
    }

    // From here on steps go to the other session.
    fn exchange(&mut self) {
        mem::swap(&mut self.blob, &mut self.other_blob);
        mem::swap(&mut self.session, &mut self.other);
    }

    fn step(&mut self, step: Step) -> Reply {
        let mut replies = Vec::new(self.alloc);
        match run(
            &mut self.session,
            &mut self.blob,
            &mut self.cache,
            &[step],
            &mut replies,
        ) {
            Ok(()) => replies.pop().unwrap_or(Reply::Closed),
            Err(error) => Reply::Fault(error),
        }
    }

    fn recover(&mut self) -> Result<u64, Error> {
        self.session = Session::closed(self.alloc);
        let size = self.blob.len();
        self.session = Session::recover(
            self.alloc,
            &mut self.blob,
            size,
            self.capacity,
            &mut self.cache,
            NonZeroUsize::MIN,
        )?;
        Ok(self.session.size().unwrap_or(0))
    }

    fn crash(&mut self, keep: &[bool]) -> Result<u64, Error> {
        self.session.crash(&mut self.blob, keep)?;
        Ok(self.blob.len())
    }

    fn play_line(&mut self, line: Line, said: &mut Vec<u8>) -> io::Result<()> {
        match line {
            Line::Step(step) => say(&self.step(step), said),
            Line::Fail(number) => {
                self.blob.fail_at(number.get());
                say(&Reply::Done, said)
            }
            Line::Crash(keep) => say_size("crashed", self.crash(&keep), said),
            Line::Recover => say_size("recovered", self.recover(), said),
            Line::Dump => write!(said, "blob {}", Hex(self.blob.bytes())),
        }
    }
}

impl<H: Sum> Subject for Pair<H> {
    fn play(&mut self, alloc: Global, row: &Row, said: &mut Vec<u8>) -> io::Result<()> {
        match read_step(alloc, &STEPS, &row.step)? {
            Some((Verb::Other, _)) => {
                self.exchange();
                say(&Reply::Done, said)
            }
            Some((Verb::Has, words)) => {
                say_whether(self.cache.holds(words.number(0), words.number(1)), said)
            }
            Some((Verb::Len, _)) => write!(said, "len {}", self.cache.len()),
            None => match parse_line(alloc, &row.step) {
                Ok(line) => self.play_line(line, said),
                Err(ReadError::Unreadable) => Err(unreadable()),
                Err(ReadError::OutOfMemory) => Err(out_of_memory()),
            },
        }
    }

    fn calls(&self) -> usize {
        self.blob.calls().len()
    }

    fn say_calls(&self, first: usize, said: &mut Vec<u8>) -> io::Result<()> {
        say_calls(self.blob.calls(), first, said)
    }
}
