// A blob in memory that notes which options came with each call.
ghost use Rattle.std.specs.Prelude.{◌≡◌, IfOk};
ghost use Rattle.disk.specs.History.{life_of};
ghost use Rattle.disk.specs.Lives.{life_covers, life_reads};

use disk::{
    Blob, Error, IoBuf, IoBufs, MemBlob, ReadOptions, StartedRead, StartedSync, WriteOptions,
};
use std::alloc::{AllocError, Global};
use std::io;
use std::io::Write;

// The calls that take options.
#[derive(Clone, Copy)]
enum Kind {
    Read,
    ReadMany,
    StartRead,
    Write,
}

#[derive(Clone, Copy)]
struct Note {
    kind: Kind,
    dont_cache: bool,
}

// More calls than a case makes between two looks at the notes.
const MOST: usize = 256;

/// A blob in memory that notes, for each read and write, whether the device need not keep the bytes
/// in a cache of its own.
#[derive(Drop)]
pub struct Noted {
    /// The blob.
    pub inner: MemBlob,
    notes: Vec<Note>,
}

impl Noted {
    /// A blob of which nothing was asked yet.
    pub fn new(alloc: Global, inner: MemBlob) -> Result<Noted, AllocError>
        ensures { IfOk result (λ blob. blob.inner ≡ inner) }
    {
        Ok(Noted {
            inner,
            notes: Vec::with_capacity(alloc, MOST)?,
        })
    }

    // Room was made at the beginning, so that a note takes no memory. What comes after the most is
    // left out.
    fn note(&mut self, kind: Kind, dont_cache: bool)
        ensures { self.new.inner ≡ self.old.inner }
    {
        if self.notes.len() < MOST {
            match self.notes.push(Note { kind, dont_cache }) {
                Ok(()) | Err(_) => {}
            }
        }
    }

    /// Writes the options of each call since this was last asked, and forgets them.
    pub fn say_options(&mut self, said: &mut Vec<u8>) -> io::Result<()>
        ensures { self.new.inner ≡ self.old.inner }
    {
        write!(said, "options")?;
        for (index, note) in self.notes.iter().enumerate() {
            if index > 0 {
                write!(said, ",")?;
            }
            say_note(*note, said)?;
        }
        self.notes.clear();
        Ok(())
    }
}

fn say_note(note: Note, said: &mut Vec<u8>) -> io::Result<()> {
    let call = match note.kind {
        Kind::Read => "read",
        Kind::ReadMany => "ranges",
        Kind::StartRead => "start-ranges",
        Kind::Write => "write",
    };
    let option = if note.dont_cache {
        "dont-cache"
    } else {
        "default"
    };
    write!(said, " {call} {option}")
}

impl Blob for Noted {
    ghost life = { λ b. life_of b.inner };

    fn len(&self) -> u64 {
        self.inner.len()
    }

    fn read_at(
        &mut self,
        alloc: Global,
        offset: u64,
        len: usize,
        options: ReadOptions,
    ) -> Result<IoBuf, Error> {
        self.note(Kind::Read, options.dont_cache);
        self.inner.read_at(alloc, offset, len, options)
    }

    fn read_many(
        &mut self,
        alloc: Global,
        ranges: &[(u64, usize)],
        options: ReadOptions,
        out: &mut Vec<(usize, IoBuf)>,
    ) -> Result<(), Error> {
        self.note(Kind::ReadMany, options.dont_cache);
        self.inner.read_many(alloc, ranges, options, out)
    }

    fn start_read_many(
        &mut self,
        alloc: Global,
        ranges: &[(u64, usize)],
        options: ReadOptions,
    ) -> StartedRead {
        self.note(Kind::StartRead, options.dont_cache);
        self.inner.start_read_many(alloc, ranges, options)
    }

    fn write_at(&mut self, offset: u64, bufs: &IoBufs, options: WriteOptions) -> Result<(), Error> {
        self.note(Kind::Write, options.dont_cache);
        self.inner.write_at(offset, bufs, options)
    }

    fn resize(&mut self, len: u64) -> Result<(), Error> {
        self.inner.resize(len)
    }

    fn sync(&mut self) -> Result<(), Error> {
        self.inner.sync()
    }

    fn start_sync(&mut self) -> Result<StartedSync, Error> {
        self.inner.start_sync()
    }

    fn wait_sync(&mut self, started: StartedSync) -> Result<(), Error> {
        self.inner.wait_sync(started)
    }

    ghost readable_is_image = { λ b. life_reads b.inner };

    ghost starts_are_covered = { λ b. life_covers b.inner };
}
