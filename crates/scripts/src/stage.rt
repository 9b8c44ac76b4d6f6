// What a script runs over.
ghost use Rattle.std.specs.Prelude.{◌≡◌};
ghost use Rattle.paged.specs.Recovery.{IsDurable};

use crate::script::Line;
use crate::start::Start;
use crate::text::{Hex, Said};
use cache::CacheRef;
use disk::{Blob, Error, MemBlob};
use page::Sum;
use session::{Reply, Session, Step, run};
use std::alloc::Global;
use std::io;
use std::io::Write;
use std::marker::Model;

/// A blob in memory with its cache, and the session on it.
pub struct Stage<H: Sum> {
    alloc: Global,
    start: Start,
    blob: MemBlob,
    // `None` if there was no memory for the cache.
    cache: Option<CacheRef>,
    session: Session<MemBlob, H>,
    // Whether a recovery may follow: the blob crashed, and no step, recovery or refused crash came
    // since then.
    crashed: bool,
}

// By hand, so that an owner lets one go by one call: of a derived drop, a proof follows each field
// at each exit.
impl<H: Sum> Drop for Stage<H> {
    fn drop(self) {
        let Stage {
            alloc: _,
            start: _,
            blob: _,
            cache: _,
            session: _,
            crashed: _,
        } = self;
    }
}

impl<H: Sum> Model for Stage<H> {
    ghost use Rattle.disk.specs.History.{life_of};
    ghost use Rattle.scripts.specs.Stage.{StageState, IsSet};

    ghost Value = { StageState };

    ghost view = { λ s. record {
      session = s.session;
      cache = s.cache;
      crashed = s.crashed;
      disk = (life_of s.blob).present;
    } };

    ghost invariant = { λ s. IsSet H.sum_of (record {
      session = s.session;
      cache = s.cache;
      crashed = s.crashed;
      disk = (life_of s.blob).present;
    }) };
}

impl<H: Sum> Stage<H> {
    /// An empty blob, and no session.
    pub fn new(alloc: Global, start: Start) -> Self
        ensures { IsDurable result.disk }
    {
        Stage {
            alloc,
            start,
            blob: MemBlob::new(alloc),
            cache: None,
            session: Session::closed(alloc),
            crashed: false,
        }
    }

    /// Recovers the blob, begins a session, and writes how many logical bytes are left. If the
    /// recovery is refused, it writes the error, and no session begins.
    pub fn open<W: Write>(&mut self, out: &mut W) -> io::Result<()>
        requires { IsDurable self.old.disk }
    {
        match self.recover() {
            Ok(size) => writeln!(out, "recovered {size}"),
            Err(error) => writeln!(out, "{}", Said(&Reply::Fault(error))),
        }
    }

    fn recover(&mut self) -> Result<u64, Error>
        requires { IsDurable self.old.disk }
    {
        self.crashed = false;
        self.session = Session::closed(self.alloc);
        let mut cache = self.start.cache(self.alloc, self.cache.take())?;
        let size = self.blob.len();
        let recovered = Session::recover(
            self.alloc,
            &mut self.blob,
            size,
            self.start.capacity,
            &mut cache,
            self.start.buffer_size(),
        );
        self.cache = Some(cache);
        self.session = recovered?;
        Ok(self.session.size().unwrap_or(0))
    }

    /// Does what a line asks for, and writes the reply.
    pub fn play<W: Write>(&mut self, line: Line, out: &mut W) -> io::Result<()> {
        match line {
            Line::Step(step) => self.step(step, out),
            Line::Fail(number) => {
                self.blob.fail_at(number.get());
                writeln!(out, "ok")
            }
            Line::Crash(keep) => self.crash(&keep, out),
            Line::Recover => {
                if self.crashed {
                    self.open(out)
                } else {
                    writeln!(out, "not-crashed")
                }
            }
            Line::Dump => writeln!(out, "blob {}", Hex(self.blob.bytes())),
        }
    }

    fn step<W: Write>(&mut self, step: Step, out: &mut W) -> io::Result<()> {
        self.crashed = false;
        let Some(cache) = &mut self.cache else {
            return writeln!(out, "{}", Said(&reply_without_cache(&step)));
        };
        let mut replies = Vec::new(self.alloc);
        match run(
            &mut self.session,
            &mut self.blob,
            cache,
            &[step],
            &mut replies,
        ) {
            Ok(()) => write_all(&replies, out),
            Err(error) => writeln!(out, "{}", Said(&Reply::Fault(error))),
        }
    }

    // A refused crash is no crash, and a recovery can't follow it.
    fn crash<W: Write>(&mut self, keep: &[bool], out: &mut W) -> io::Result<()> {
        match self.session.crash(&mut self.blob, keep) {
            Ok(()) => {
                self.crashed = true;
                writeln!(out, "crashed {}", self.blob.len())
            }
            Err(error) => {
                self.crashed = false;
                writeln!(out, "{}", Said(&Reply::Fault(error)))
            }
        }
    }
}

// The reply where no cache could be made: the session is closed, and there has been no snapshot, no
// replay and no started sync.
fn reply_without_cache(step: &Step) -> Reply {
    match step {
        Step::WaitSync(_)
        | Step::Snap(..)
        | Step::DropSnapshot(_)
        | Step::Ensure(..)
        | Step::Take(..)
        | Step::Seek(..)
        | Step::DropReplay(_) => Reply::NoSuch,
        _ => Reply::Closed,
    }
}

fn write_all<W: Write>(replies: &[Reply], out: &mut W) -> io::Result<()> {
    for reply in replies {
        writeln!(out, "{}", Said(reply))?;
    }
    Ok(())
}
