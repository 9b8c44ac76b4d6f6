// The blob that workloads are played on.
ghost use Rattle.std.specs.Prelude.{◌≡◌, length, IfOk};
ghost use Rattle.cache.specs.Pages.{IsFresh};
ghost use Rattle.disk.specs.History.{life_of};
ghost use Rattle.paged.specs.Ready.{IsReady};
ghost use Rattle.journal.specs.Journal.{IsJournal};

use anyhow::Result;
use cache::CacheRef;
use disk::{Blob, Error, IoBuf, VecBlob};
use journal::Journal;
use page::{CHECKSUM_SIZE, Sum};
use paged::{Writer, recover};
use std::alloc::Global;
use std::num::{NonZeroU16, NonZeroUsize};

/// How many bytes a writer buffers.
pub const CAPACITY: usize = 65_536;

/// What a workload is played on, and how much of it.
#[derive(Clone, Copy)]
pub struct Plan {
    pub seed: u64,
    pub page_size: NonZeroU16,
    /// The content of each of its blobs, in bytes.
    pub bytes: u64,
    /// How often it is played, each time on other content.
    pub rounds: u64,
}

impl Plan {
    /// How many pages the content has, and some more.
    pub fn pages(&self) -> u64 {
        (self.bytes / u64::from(self.page_size.get())).saturating_add(2)
    }
}

/// A blob in memory, and its cache.
#[derive(Drop)]
pub struct Stage {
    pub alloc: Global,
    pub blob: VecBlob,
    pub cache: CacheRef,
}

impl Stage {
    /// An empty blob and a cache of so many pages. The blob has memory for the content, and all of
    /// that memory was written to before.
    pub fn new(alloc: Global, plan: &Plan, cached: u64) -> Result<Self>
        ensures { IfOk result (λ stage. IsFresh stage.cache) }
    {
        let page = u64::from(plan.page_size.get()) + CHECKSUM_SIZE;
        // Some memory more, since the last record of a content may pass its end.
        let room = plan.pages().saturating_mul(page).saturating_add(4 << 20) as usize;
        let mut memory = Vec::with_capacity(alloc, room)?;
        memory.resize(room, 0)?;
        memory.clear();
        let cached = NonZeroUsize::new(cached as usize).unwrap_or(NonZeroUsize::MIN);
        Ok(Stage {
            alloc,
            blob: VecBlob::from_vec(memory),
            cache: CacheRef::new(alloc, plan.page_size, cached)?,
        })
    }

    /// Empties the blob, and answers its writer.
    pub fn restart<H: Sum>(&mut self) -> Result<Writer<VecBlob, H>, Error>
        requires { IsFresh self.old.cache }
        ensures { IfOk result (λ writer.
            IsReady H.sum_of writer self.new.cache (life_of self.new.blob.history)) }
    {
        self.blob.resize(0)?;
        self.recover::<H>(NonZeroUsize::MIN)
    }

    /// Recovers the blob with a buffer of so many bytes, and answers its writer.
    pub fn recover<H: Sum>(
        &mut self,
        buffer_size: NonZeroUsize,
    ) -> Result<Writer<VecBlob, H>, Error>
        requires { IsFresh self.old.cache }
        ensures { IfOk result (λ writer.
            IsReady H.sum_of writer self.new.cache (life_of self.new.blob.history)) }
    {
        let (alloc, size) = (self.alloc, self.blob.len());
        recovered(alloc, &mut self.blob, size, &mut self.cache, buffer_size)
    }

    /// Recovers the journal of the blob with a buffer of so many bytes, and answers it with its
    /// records.
    pub fn recover_journal<H: Sum>(
        &mut self,
        buffer_size: NonZeroUsize,
    ) -> Result<(Journal<VecBlob, H, H>, Vec<IoBuf>), Error>
        requires { IsFresh self.old.cache }
        ensures fresh { IsFresh self.new.cache }
        ensures journal { IfOk result (λ r.
            IsJournal H.sum_of r.0 self.new.cache (life_of self.new.blob.history)) }
    {
        let (alloc, size) = (self.alloc, self.blob.len());
        let (blob, cache) = (&mut self.blob, &mut self.cache);
        Journal::recover(alloc, blob, size, CAPACITY, cache, buffer_size)
    }

    /// Empties the blob, and answers its journal.
    pub fn restart_journal<H: Sum>(&mut self) -> Result<Journal<VecBlob, H, H>, Error>
        requires { IsFresh self.old.cache }
        ensures fresh { IsFresh self.new.cache }
        ensures journal { IfOk result (λ journal.
            IsJournal H.sum_of journal self.new.cache (life_of self.new.blob.history)) }
    {
        self.blob.resize(0)?;
        let (journal, _) = self.recover_journal::<H>(NonZeroUsize::MIN)?;
        Ok(journal)
    }
}

/// Recovers a blob of `size` physical bytes with a buffer of so many bytes, and answers its writer.
pub fn recovered<B: Blob, H: Sum>(
    alloc: Global,
    blob: &mut B,
    size: u64,
    cache: &mut CacheRef,
    buffer_size: NonZeroUsize,
) -> Result<Writer<B, H>, Error>
    requires fresh { IsFresh cache.old }
    requires length { size ≡ length (B.life blob.old).present.readable }
    ensures { IfOk result (λ writer. IsReady H.sum_of writer cache.new (B.life blob.new)) }
{
    let recovery = recover::<B, H>(alloc, blob, size, CAPACITY, cache, buffer_size)?;
    Ok(Writer::from(recovery))
}
