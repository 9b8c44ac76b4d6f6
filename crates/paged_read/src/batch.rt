// What a read of many ranges gathers.
ghost use Rattle.std.specs.Prelude.{◌≡◌, ◌+◌, ◌-◌, ◌<◌, ◌^◌, ◌++◌, ◌∷◌, [], length, OnOk};
ghost use Rattle.std.specs.Prelude.{IsOkUnless, if◌then◌else◌};
ghost use Rattle.paged_read.specs.Batch.{with_page};

use crate::lack::Lack;
use cache::Piece;
use disk::Error;
use std::alloc::Global;

/// What a read of many ranges still has to read: the pages, in rising order and each once, and the
/// pieces of those pages. `served` counts the ranges that need no page.
#[derive(Drop)]
pub(crate) struct Batch {
    pub(crate) pages: Vec<u64>,
    pub(crate) lacks: Vec<Lack>,
    pub(crate) served: usize,
}

/// Adds a page after rising ones, unless it is the last. `OutOfMemory` alone.
fn add_page(pages: &mut Vec<u64>, page: u64) -> Result<(), Error>
    ensures ok { OnOk result (pages.new.items ≡ with_page page pages.old.items) }
    ensures some { OnOk result (0 < length pages.new.items) }
    ensures err { IsOkUnless result Error.OutOfMemory }
{
    if let Some(last) = pages.last() {
        if *last == page {
            return Ok(());
        }
    }
    pages.push(page)?;
    Ok(())
}

impl Batch {
    /// A batch of nothing.
    pub(crate) fn new(alloc: Global) -> Self
        ensures pages { result.pages.items ≡ [] }
        ensures lacks { result.lacks.items ≡ [] }
        ensures served { result.served ≡ 0 }
    {
        Batch {
            pages: Vec::new(alloc),
            lacks: Vec::new(alloc),
            served: 0,
        }
    }

    /// Adds a piece of a page after the pieces of the batch. `OutOfMemory` alone.
    pub(crate) fn add(&mut self, piece: Piece) -> Result<(), Error>
        ensures pages { OnOk result (self.new.pages.items
            ≡ with_page piece.page self.old.pages.items) }
        ensures lacks { OnOk result (self.new.lacks.items ≡ self.old.lacks.items
            ++ record { number = length self.new.pages.items - 1; piece = piece } ∷ []) }
        ensures served { self.new.served ≡ self.old.served }
        ensures err { IsOkUnless result Error.OutOfMemory }
    {
        add_page(&mut self.pages, piece.page)?;
        let number = self.pages.len() - 1;
        self.lacks.push(Lack { number, piece })?;
        Ok(())
    }

    /// Counts a range as one that needs no page, if `served`.
    pub(crate) fn count(&mut self, served: bool)
        requires { self.old.served + 1 < 2 ^ 64 }
        ensures served { self.new.served ≡ self.old.served + (if served then 1 else 0) }
        ensures pages { self.new.pages ≡ self.old.pages }
        ensures lacks { self.new.lacks ≡ self.old.lacks }
    {
        if served {
            self.served += 1;
        }
    }
}
