// A host in memory.
ghost use Rattle.std.specs.Prelude.{◌≡◌, [], IfOk};

use crate::devices::add_copy;
use disk::{Blob, Error, IoBufs, Past, VecBlob, WriteOptions};
use file::{Host, Sink, put_runs};
use std::alloc::{AllocError, Global};
use std::io;
use std::io::{ErrorKind, Write};
use std::marker::Model;
use std::snapshot::Snapshot;

/// What a host was asked for: for a put the offset and how many bytes.
#[derive(Clone, Copy)]
pub enum Told {
    /// To put so many bytes at an offset.
    Put(u64, usize),
    /// To set the length in bytes.
    SetLen(u64),
    /// A sync.
    Sync,
}

// What a host holds and was asked for. Its call of some number fails, counted from 1.
#[derive(Drop)]
struct Medium {
    alloc: Global,
    blob: VecBlob,
    told: Vec<Told>,
    failing: usize,
}

impl Medium {
    // Notes a call, and fails if it is the one that must fail.
    fn note(&mut self, told: Told) -> io::Result<()> {
        self.told.push(told)?;
        if self.told.len() == self.failing {
            return Err(ErrorKind::StorageFull.into());
        }
        Ok(())
    }

    fn write(&mut self, offset: u64, bufs: &IoBufs) -> io::Result<()> {
        self.note(Told::Put(offset, bufs.len()))?;
        done(self.blob.write_at(offset, bufs, WriteOptions::default()))
    }

    fn cut(&mut self, len: u64) -> io::Result<()> {
        self.note(Told::SetLen(len))?;
        done(self.blob.resize(len))
    }
}

impl Sink for Medium {
    ghost goes = { λ _ _ _. Unit {0} };

    fn put(&mut self, offset: u64, bytes: &[u8]) -> io::Result<()> {
        let mut bufs = IoBufs::new(self.alloc);
        done(add_copy(self.alloc, &mut bufs, bytes))?;
        self.write(offset, &bufs)
    }
}

// A call of a blob in memory fails only if there is no memory.
fn done(answer: Result<(), Error>) -> io::Result<()> {
    match answer {
        Ok(()) => Ok(()),
        Err(_) => Err(ErrorKind::OutOfMemory.into()),
    }
}

/// A host in memory that writes in runs, as a file does, and notes what it is asked for. Its call of
/// some number fails, counted from 1; each run is a call.
#[derive(Drop)]
pub struct Recorder {
    medium: Medium,
    gathered: Vec<u8>,
    past: Snapshot<Past>,
}

impl Model for Recorder {
    ghost use Rattle.std.specs.Prelude.{List};
    ghost use Rattle.disk.specs.declared.action.Event.{Event};

    ghost Value = { List Event };

    ghost view = { λ r. r.past.value.events };
}

impl Recorder {
    /// An empty host, whose runs have at most so many bytes.
    pub fn new(alloc: Global, failing: usize, room: usize) -> Result<Self, AllocError>
        ensures { IfOk result (λ host. host ≡ []) }
    {
        Ok(Recorder {
            medium: Medium {
                alloc,
                blob: VecBlob::new(alloc),
                told: Vec::new(alloc),
                failing,
            },
            gathered: Vec::with_capacity(alloc, room)?,
            past: Past::begun(&Vec::new(alloc)),
        })
    }

    /// The bytes that the host holds.
    pub fn bytes(&self) -> &[u8] {
        self.medium.blob.bytes()
    }

    /// What the host was asked for.
    pub fn told(&self) -> &[Told] {
        &self.medium.told
    }

    // A write of no byte is a call too.
    fn write(&mut self, offset: u64, bufs: &IoBufs) -> io::Result<()>
        ensures { self.new ≡ self.old }
    {
        if bufs.is_empty() {
            return self.medium.write(offset, bufs);
        }
        put_runs(
            &mut self.medium,
            &mut self.gathered,
            offset,
            bufs.as_slice(),
        )
    }
}

impl Host for Recorder {
    ghost asked = { λ r. r };

    fn put(&mut self, offset: u64, bufs: &IoBufs) -> io::Result<()> {
        let result = self.write(offset, bufs);
        self.past = Past::write(&self.past, offset, bufs, false, result.is_err());
        result
    }

    fn set_len(&mut self, len: u64) -> io::Result<()> {
        let result = self.medium.cut(len);
        self.past = Past::resize(&self.past, len, result.is_err());
        result
    }

    fn sync(&mut self) -> io::Result<()> {
        let result = self.medium.note(Told::Sync);
        self.past = Past::sync(&self.past, result.is_err());
        result
    }
}

fn say_one(told: Told, said: &mut Vec<u8>) -> io::Result<()> {
    match told {
        Told::Put(offset, len) => write!(said, "put {offset} {len}"),
        Told::SetLen(len) => write!(said, "set-len {len}"),
        Told::Sync => write!(said, "sync"),
    }
}

/// Writes what a host was asked for, from one call on.
pub fn say_told(told: &[Told], first: usize, said: &mut Vec<u8>) -> io::Result<()> {
    if told.len() <= first {
        return write!(said, "none");
    }
    for (index, one) in told.iter().skip(first).enumerate() {
        if index > 0 {
            write!(said, ", ")?;
        }
        say_one(*one, said)?;
    }
    Ok(())
}
