// What a script of items runs over.
use crate::item_line::ItemLine;
use crate::start::ItemStart;
use crate::text::{Hex, SaidItem};
use cache::CacheRef;
use disk::{Blob, Error, MemBlob};
use items::{ItemReply, ItemSession, ItemStep, Items, run_items};
use page::Sum;
use std::alloc::Global;
use std::io;
use std::io::Write;
use std::marker::Model;

/// A blob in memory with its cache, and the items in it.
pub struct ItemStage<H: Sum> {
    alloc: Global,
    start: ItemStart,
    blob: MemBlob,
    // `None` if there was no memory for the cache.
    cache: Option<CacheRef>,
    session: ItemSession<MemBlob, H>,
    // Whether a recovery may follow: the blob crashed, and no step, recovery or refused crash came
    // since then.
    crashed: bool,
}

// By hand, so that an owner lets one go by one call: of a derived drop, a proof follows each field
// at each exit.
impl<H: Sum> Drop for ItemStage<H> {
    fn drop(self) {
        let ItemStage {
            alloc: _,
            start: _,
            blob: _,
            cache: _,
            session: _,
            crashed: _,
        } = self;
    }
}

impl<H: Sum> Model for ItemStage<H> {
    ghost use Rattle.disk.specs.History.{life_of};
    ghost use Rattle.scripts.specs.Stage.{AreItemsSet};

    ghost Value = { Unit {0} };

    ghost view = { λ s. tt };

    ghost invariant = { λ s. AreItemsSet H.sum_of s.session s.cache (life_of s.blob) };
}

impl<H: Sum> ItemStage<H> {
    /// An empty blob, and no items.
    pub fn new(alloc: Global, start: ItemStart) -> Self {
        ItemStage {
            alloc,
            start,
            blob: MemBlob::new(alloc),
            cache: None,
            session: ItemSession::closed(alloc),
            crashed: false,
        }
    }

    /// Recovers the items of the blob, and writes how many are left. If the recovery is refused, it
    /// writes the error, and the session has no items.
    pub fn open<W: Write>(&mut self, out: &mut W) -> io::Result<()> {
        match self.recover() {
            Ok(count) => writeln!(out, "recovered {count}"),
            Err(error) => writeln!(out, "{}", SaidItem(&ItemReply::Fault(error))),
        }
    }

    fn recover(&mut self) -> Result<u64, Error> {
        self.crashed = false;
        self.session = ItemSession::closed(self.alloc);
        let settings = self.start.settings;
        let mut cache = settings.cache(self.alloc, self.cache.take())?;
        let blob_size = self.blob.len();
        let recovered = Items::recover(
            self.alloc,
            &mut self.blob,
            blob_size,
            settings.capacity,
            &mut cache,
            settings.buffer_size(),
            self.start.size,
        );
        self.cache = Some(cache);
        let items = recovered?;
        let count = items.len();
        self.session = ItemSession::new(self.alloc, items);
        Ok(count)
    }

    /// Does what a line asks for, and writes the reply.
    pub fn play<W: Write>(&mut self, line: ItemLine, out: &mut W) -> io::Result<()> {
        match line {
            ItemLine::Step(step) => self.step(step, out),
            ItemLine::Fail(number) => {
                self.blob.fail_at(number.get());
                writeln!(out, "ok")
            }
            ItemLine::Crash(keep) => self.crash(&keep, out),
            ItemLine::Recover => {
                if self.crashed {
                    self.open(out)
                } else {
                    writeln!(out, "not-crashed")
                }
            }
            ItemLine::Dump => writeln!(out, "blob {}", Hex(self.blob.bytes())),
        }
    }

    fn step<W: Write>(&mut self, step: ItemStep, out: &mut W) -> io::Result<()> {
        self.crashed = false;
        let Some(cache) = &mut self.cache else {
            return writeln!(out, "{}", SaidItem(&ItemReply::Closed));
        };
        let mut replies = Vec::new(self.alloc);
        match run_items(
            &mut self.session,
            &mut self.blob,
            cache,
            &[step],
            &mut replies,
        ) {
            Ok(()) => write_all(&replies, out),
            Err(error) => writeln!(out, "{}", SaidItem(&ItemReply::Fault(error))),
        }
    }

    // A refused crash is no crash, and a recovery can't follow it.
    fn crash<W: Write>(&mut self, keep: &[bool], out: &mut W) -> io::Result<()> {
        match self.blob.crash(keep) {
            Ok(()) => {
                self.session = ItemSession::closed(self.alloc);
                self.crashed = true;
                writeln!(out, "crashed {}", self.blob.len())
            }
            Err(error) => {
                self.crashed = false;
                writeln!(out, "{}", SaidItem(&ItemReply::Fault(error)))
            }
        }
    }
}

fn write_all<W: Write>(replies: &[ItemReply], out: &mut W) -> io::Result<()> {
    for reply in replies {
        writeln!(out, "{}", SaidItem(reply))?;
    }
    Ok(())
}
