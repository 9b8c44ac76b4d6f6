// A mirror over a host whose call of some number fails.
use crate::alike::try_alike;
use crate::devices::{DURABLE, buffers, play_call};
use crate::forms::Argument::{Number, Pieces};
use crate::forms::{Arguments, Form, read_step};
use crate::line::Row;
use crate::recorder::{Recorder, say_told};
use crate::subject::Subject;
use crate::words::{out_of_memory, say_bytes, say_done, unreadable};
use disk::{Blob, MemBlob, StartedRead};
use file::Mirror;
use std::alloc::Global;
use std::io;
use std::io::{ErrorKind, Write};
use std::marker::Model;

// What a step asks of a mirror alone.
#[derive(Clone, Copy)]
enum Verb {
    WriteDurably,
    Dump,
    Host,
    Failure,
    Alike,
}

const STEPS: [Form<Verb>; 5] = [
    (b"write-durable", &[Number, Pieces], Verb::WriteDurably),
    (b"dump", &[], Verb::Dump),
    (b"host", &[], Verb::Host),
    (b"failure", &[], Verb::Failure),
    (b"alike", &[Number, Number], Verb::Alike),
];

/// A mirror over a host in memory, and the read that was started last.
#[derive(Drop)]
pub struct Mirrored {
    mirror: Mirror<Recorder>,
    started: Option<StartedRead>,
    // Whether no call was made of the mirror yet: only then may a write be durable.
    new: bool,
}

impl Model for Mirrored {
    ghost use Rattle.std.specs.Prelude.{◌≡◌, true, []};
    ghost use Rattle.disk.specs.History.{life_of};

    ghost Value = { Unit {0} };

    ghost view = { λ m. tt };

    ghost invariant = { λ m. m.new ≡ true
        → (life_of m.mirror.kept.history).present.since ≡ [] };
}

impl Mirrored {
    /// An empty mirror, over a host whose call of this number fails, and whose runs have at most so
    /// many bytes.
    pub fn new(alloc: Global, failing: u64, room: usize) -> io::Result<Box<Mirrored>> {
        let host = Recorder::new(alloc, failing as usize, room)?;
        Ok(Box::new(
            alloc,
            Mirrored {
                mirror: Mirror::new(host, Vec::new(alloc)),
                started: None,
                new: true,
            },
        )?)
    }

    // Writes durably. Only the first call may.
    fn write_durably(
        &mut self,
        alloc: Global,
        offset: u64,
        pieces: &[Vec<u8>],
        said: &mut Vec<u8>,
    ) -> io::Result<()> {
        let Ok(bufs) = buffers(alloc, pieces) else {
            return Err(out_of_memory());
        };
        if !self.new {
            return Err(unreadable());
        }
        self.new = false;
        say_done(self.mirror.write_at(offset, &bufs, DURABLE), said)
    }

    fn say_failure(&self, said: &mut Vec<u8>) -> io::Result<()> {
        match self.mirror.failure() {
            None => write!(said, "none"),
            Some(error) => {
                if error.kind() == ErrorKind::StorageFull {
                    write!(said, "storage-full")
                } else {
                    write!(said, "fault another")
                }
            }
        }
    }

    // Makes the same calls of the mirror and of a blob in memory.
    fn try_alike(
        &mut self,
        alloc: Global,
        seed: u64,
        count: u64,
        said: &mut Vec<u8>,
    ) -> io::Result<()> {
        let Ok(mut other) = MemBlob::from_bytes(alloc, self.mirror.bytes()) else {
            return Err(out_of_memory());
        };
        self.new = false;
        try_alike(alloc, &mut self.mirror, &mut other, seed, count, said)?;
        if self.mirror.bytes() == other.bytes() && self.mirror.host().bytes() == other.bytes() {
            return Ok(());
        }
        write!(said, ", but fault in the bytes")
    }

    fn go(
        &mut self,
        alloc: Global,
        verb: Verb,
        words: &Arguments,
        said: &mut Vec<u8>,
    ) -> io::Result<()> {
        let (first, second) = (words.number(0), words.number(1));
        match verb {
            Verb::WriteDurably => self.write_durably(alloc, first, &words.pieces, said),
            Verb::Dump => say_bytes("blob", self.mirror.bytes(), said),
            Verb::Host => say_bytes("blob", self.mirror.host().bytes(), said),
            Verb::Failure => self.say_failure(said),
            Verb::Alike => self.try_alike(alloc, first, second, said),
        }
    }

    fn play_call(&mut self, alloc: Global, line: &[u8], said: &mut Vec<u8>) -> io::Result<()> {
        self.new = false;
        play_call(alloc, &mut self.mirror, &mut self.started, line, said)
    }
}

impl Subject for Mirrored {
    fn play(&mut self, alloc: Global, row: &Row, said: &mut Vec<u8>) -> io::Result<()> {
        match read_step(alloc, &STEPS, &row.step)? {
            Some((verb, words)) => self.go(alloc, verb, &words, said),
            None => self.play_call(alloc, &row.step, said),
        }
    }

    fn calls(&self) -> usize {
        self.mirror.host().told().len()
    }

    fn say_calls(&self, first: usize, said: &mut Vec<u8>) -> io::Result<()> {
        say_told(self.mirror.host().told(), first, said)
    }
}
