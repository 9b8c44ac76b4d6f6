// A blob with a journal on it, and a cache of its own.
ghost use Rattle.std.specs.Prelude.{◌≡◌, ◌≤◌, ◌+◌, ◌-◌, ◌*◌, ◌∷◌, ◌++◌, [], length};
ghost use Rattle.std.specs.Prelude.{is_none, max, None, IfErr, IfOk};
ghost use Rattle.std.specs.Int.NonZero.{non_zero_u16_get};
ghost use Rattle.segments.specs.Owned.{IsOwned, OwnedAddGoes, OwnedAddKeeps, OwnedAppendGoes};
ghost use Rattle.segments.specs.Owned.{OwnedCommitGoes, OwnedLeaves};
ghost use Rattle.segments.specs.Owned.{OwnedStartGoes, OwnedWaitGoes};
ghost use Rattle.segments.specs.Owned.{OwnedKeeps, OwnedReadLeaves, OwnedReadGoes, OwnedSealGoes};
ghost use Rattle.segments.specs.Owned.{HasJournal, LevelsGo, OwnedContentGoes};
ghost use Rattle.segments.specs.Owned.{OwnedRecoverGoes};
ghost use Rattle.segments.specs.Owned.{owned_size, records_now, without_journal};
ghost use Rattle.segments.specs.Ahead.{AheadGoes, HasDigests, PagesGo, content_calls};
ghost use Rattle.paged.specs.Calls.{AsksAtMost};
ghost use Rattle.journal.specs.Calls.{JournalRecoveryLeaves};
ghost use Rattle.page_digests.specs.Seals.{EachIsByte};

use crate::error::Error;
use crate::segment_digesting::{SegmentDigesting, SegmentLevels};
use cache::CacheRef;
use digest::Digest;
use disk::{Blob, IoBuf, StartedSync};
use journal::{Found, Journal};
use page::Sum;
use std::alloc::Global;
use std::marker::Model;
use std::mem;
use std::num::{NonZeroU16, NonZeroUsize};

/// A blob with a journal on it, and a cache of its own. If a call that takes the journal fails, the
/// journal is gone: each later call that needs one answers `Closed`, until a recovery.
pub struct OwnedJournal<B: Blob, H, R, D: Digest> {
    pub blob: B,
    cache: CacheRef,
    journal: Option<Journal<B, H, R>>,
    page_size: NonZeroU16,
    records: u64,
    // The digests and the marks so far of the first whole pages of the content.
    digesting: SegmentDigesting<D>,
}

// By hand, so that an owner lets one go by one call: of a derived drop, a proof follows each field
// at each exit.
impl<B: Blob + Drop, H, R, D: Digest> Drop for OwnedJournal<B, H, R, D> {
    fn drop(self) {
        let OwnedJournal {
            blob: _,
            cache: _,
            journal: _,
            page_size: _,
            records: _,
            digesting: _,
        } = self;
    }
}

impl<B: Blob, H, R, D: Digest> Model for OwnedJournal<B, H, R, D> {
    ghost use Rattle.std.specs.Int.NonZero.{non_zero_u16_get};
    ghost use Rattle.segments.specs.Owned.{OwnedState};
    ghost use Rattle.segments.specs.Ahead.{HasDigests};

    ghost Value = { OwnedState };

    ghost view = { λ o. record {
      cache = o.cache;
      life = B.life o.blob;
      journal = o.journal;
      page_size = non_zero_u16_get o.page_size;
      records = o.records;
      digested = o.digesting.digested.pages;
    } };

    ghost invariant = { λ o. HasDigests D.digest_of (record {
      cache = o.cache;
      life = B.life o.blob;
      journal = o.journal;
      page_size = non_zero_u16_get o.page_size;
      records = o.records;
      digested = o.digesting.digested.pages;
    }) o.digesting };
}

impl<B: Blob + Drop, H: Sum, R: Sum, D: Digest> OwnedJournal<B, H, R, D> {
    /// A blob with no journal yet, and a cache of so many pages. The only error is `OutOfMemory`.
    pub fn new(
        alloc: Global,
        blob: B,
        page_size: NonZeroU16,
        pages: NonZeroUsize,
    ) -> Result<Self, disk::Error>
        ensures owned { IfOk result (λ o. IsOwned H.sum_of R.sum_of o) }
        ensures life { IfOk result (λ o. o.life ≡ B.life blob) }
        ensures none { IfOk result (λ o. o.journal ≡ None) }
        ensures page_size { IfOk result (λ o. o.page_size ≡ non_zero_u16_get page_size) }
        ensures cache { IfOk result (λ o. o.cache.page_size ≡ non_zero_u16_get page_size) }
    {
        match CacheRef::new(alloc, page_size, pages) {
            Ok(cache) => Ok(OwnedJournal {
                blob,
                cache,
                journal: None,
                page_size,
                records: 0,
                digesting: SegmentDigesting::new(alloc, page_size),
            }),
            Err(error) => Err(error),
        }
    }

    /// The blob of the journal.
    pub fn blob(&self) -> &B
        ensures { B.life result.now ≡ self.now.life }
    {
        &self.blob
    }

    /// The blob alone, without the journal and the cache.
    pub fn into_blob(self) -> B
        ensures { B.life result ≡ self.life }
    {
        let OwnedJournal {
            blob,
            cache: _,
            journal: _,
            page_size: _,
            records: _,
            digesting: _,
        } = self;
        blob
    }

    /// How many records the journal has.
    pub fn records(&self) -> u64
        ensures { result ≡ self.now.records }
    {
        self.records
    }

    /// Recovers the journal of the blob as it is, and answers its records. After an error there is
    /// no journal.
    pub fn recover(
        &mut self,
        alloc: Global,
        capacity: usize,
        buffer_size: NonZeroUsize,
    ) -> Result<Vec<IoBuf>, disk::Error>
        requires owned { IsOwned H.sum_of R.sum_of self.old }
        requires page_size { self.old.cache.page_size ≡ self.old.page_size }
        ensures goes { OwnedRecoverGoes H.sum_of R.sum_of capacity self.old self.new result }
        ensures ready { IsOwned H.sum_of R.sum_of self.new }
        ensures leaves { JournalRecoveryLeaves H.sum_of R.sum_of self.old.cache self.new.cache
            self.old.life self.new.life }
        ensures page_size { self.new.page_size ≡ self.old.page_size }
    {
        self.digesting = SegmentDigesting::new(alloc, self.page_size);
        let size = self.blob.len();
        match Journal::recover(
            alloc,
            &mut self.blob,
            size,
            capacity,
            &mut self.cache,
            buffer_size,
        ) {
            Ok((journal, records)) => {
                self.records = records.len() as u64;
                self.journal = Some(journal);
                Ok(records)
            }
            Err(error) => {
                self.journal = None;
                Err(error)
            }
        }
    }

    /// Appends a record, and answers the logical offset of its frame.
    pub fn append(&mut self, bytes: &[u8]) -> Result<u64, Error>
        requires owned { IsOwned H.sum_of R.sum_of self.old }
        requires short { length bytes.now ≤ 65535 }
        ensures goes { OwnedAppendGoes H.sum_of R.sum_of bytes.now self.old self.new result }
        ensures ready { IsOwned H.sum_of R.sum_of self.new }
        ensures leaves { let all = records_now R.sum_of self.old ++ bytes.now ∷ [] in
            OwnedLeaves H.sum_of R.sum_of all self.old self.new }
        ensures page_size { self.new.page_size ≡ self.old.page_size }
    {
        let Some(journal) = self.journal.take() else {
            return Err(Error::Closed);
        };
        match journal.append_record(&mut self.blob, &mut self.cache, bytes) {
            Ok((journal, offset)) => {
                let _size = journal.size();
                self.records += 1;
                self.journal = Some(journal);
                Ok(offset)
            }
            Err(error) => Err(Error::Layer(error)),
        }
    }

    /// Commits all records.
    pub fn commit(&mut self) -> Result<(), Error>
        requires owned { IsOwned H.sum_of R.sum_of self.old }
        ensures goes { OwnedCommitGoes H.sum_of R.sum_of self.old self.new result }
        ensures ready { IsOwned H.sum_of R.sum_of self.new }
        ensures leaves { let all = records_now R.sum_of self.old in
            OwnedLeaves H.sum_of R.sum_of all self.old self.new }
        ensures page_size { self.new.page_size ≡ self.old.page_size }
    {
        let Some(journal) = self.journal.take() else {
            return Err(Error::Closed);
        };
        match journal.commit(&mut self.blob, &mut self.cache) {
            Ok(journal) => {
                self.journal = Some(journal);
                Ok(())
            }
            Err(error) => Err(Error::Layer(error)),
        }
    }

    /// Starts a commit of all records.
    pub fn start_commit(&mut self) -> Result<StartedSync, Error>
        requires owned { IsOwned H.sum_of R.sum_of self.old }
        ensures goes { OwnedStartGoes H.sum_of R.sum_of self.old self.new result }
        ensures ready { IsOwned H.sum_of R.sum_of self.new }
        ensures leaves { let all = records_now R.sum_of self.old in
            OwnedLeaves H.sum_of R.sum_of all self.old self.new }
        ensures page_size { self.new.page_size ≡ self.old.page_size }
    {
        let Some(journal) = self.journal.take() else {
            return Err(Error::Closed);
        };
        match journal.start_commit(&mut self.blob, &mut self.cache) {
            Ok((journal, started)) => {
                self.journal = Some(journal);
                Ok(started)
            }
            Err(error) => Err(Error::Layer(error)),
        }
    }

    /// Waits for the commit that was started last.
    pub fn wait_for_commit(&mut self) -> Result<(), Error>
        requires owned { IsOwned H.sum_of R.sum_of self.old }
        ensures goes { OwnedWaitGoes H.sum_of R.sum_of self.old self.new result }
        ensures ready { IsOwned H.sum_of R.sum_of self.new }
        ensures leaves { let all = records_now R.sum_of self.old in
            OwnedLeaves H.sum_of R.sum_of all self.old self.new }
        ensures page_size { self.new.page_size ≡ self.old.page_size }
    {
        let Some(journal) = self.journal.take() else {
            return Err(Error::Closed);
        };
        match journal.wait_for_commit(&mut self.blob) {
            Ok(journal) => {
                self.journal = Some(journal);
                Ok(())
            }
            Err(error) => Err(Error::Layer(error)),
        }
    }

    /// The frame at a logical offset; `None` at the end and after it. An error leaves the journal.
    pub fn read(&mut self, offset: u64) -> Result<Option<Found>, Error>
        requires owned { IsOwned H.sum_of R.sum_of self.old }
        ensures goes { OwnedReadGoes R.sum_of offset self.old self.new result }
        ensures ready { IsOwned H.sum_of R.sum_of self.new }
        ensures leaves { OwnedReadLeaves H.sum_of R.sum_of self.old self.new }
    {
        let Some(journal) = &self.journal else {
            return Err(Error::Closed);
        };
        match journal.read_record(&mut self.blob, &mut self.cache, offset) {
            Ok(found) => Ok(found),
            Err(error) => Err(Error::Layer(error)),
        }
    }

    /// Appends a record and commits all.
    pub fn add(&mut self, bytes: &[u8]) -> Result<(), Error>
        requires owned { IsOwned H.sum_of R.sum_of self.old }
        requires short { length bytes.now ≤ 65535 }
        ensures goes { OwnedAddGoes H.sum_of R.sum_of bytes.now self.old self.new result }
        ensures ready { IsOwned H.sum_of R.sum_of self.new }
        ensures added { OwnedAddKeeps H.sum_of R.sum_of bytes.now self.old self.new }
        ensures page_size { self.new.page_size ≡ self.old.page_size }
    {
        match self.append(bytes) {
            Ok(_) => self.commit(),
            Err(error) => Err(error),
        }
    }

    /// Commits all records, closes the journal, and answers the levels of its content and of the
    /// marks of that. All of the blob is durable then. After an error there is no journal either.
    pub fn seal(&mut self, alloc: Global) -> Result<SegmentLevels, Error>
        requires owned { IsOwned H.sum_of R.sum_of self.old }
        ensures goes { let d = D.digest_of in
            OwnedSealGoes d H.sum_of R.sum_of self.old self.new result }
        ensures ready { IsOwned H.sum_of R.sum_of self.new }
        ensures kept { OwnedKeeps H.sum_of R.sum_of self.old self.new }
        ensures none { self.new.journal ≡ None }
        ensures page_size { self.new.page_size ≡ self.old.page_size }
    {
        self.commit()?;
        let levels = self.levels(alloc);
        self.forget();
        levels
    }

    // The levels of the content and of its marks.
    fn levels(&mut self, alloc: Global) -> Result<SegmentLevels, Error>
        requires owned { IsOwned H.sum_of R.sum_of self.old }
        ensures goes { LevelsGo D.digest_of self.old self.new result }
        ensures ready { IsOwned H.sum_of R.sum_of self.new }
        ensures leaves { OwnedReadLeaves H.sum_of R.sum_of self.old self.new }
    {
        let Some(journal) = &self.journal else {
            return Err(Error::Closed);
        };
        let size = journal.size();
        let page_size = self.page_size.get() as u64;
        let full = size / page_size;
        let mut digesting = self.take_digesting(alloc);
        self.digest_pages(alloc, &mut digesting, full)?;
        let mut rest = Vec::new(alloc);
        rest.resize((size - full * page_size) as usize, 0)?;
        self.read_content(&mut rest, full * page_size)?;
        are_bytes(&rest);
        Ok(digesting.finish(alloc, &rest)?)
    }

    /// Digests and marks the next whole pages of the content, at most `most` of them, so that
    /// [`seal`](OwnedJournal::seal) has fewer to digest. An error leaves the journal, and what was
    /// digested before it.
    pub fn digest_ahead(&mut self, alloc: Global, most: u64) -> Result<(), Error>
        requires owned { IsOwned H.sum_of R.sum_of self.old }
        ensures goes { AheadGoes most self.old self.new result }
        ensures ready { IsOwned H.sum_of R.sum_of self.new }
        ensures leaves { OwnedReadLeaves H.sum_of R.sum_of self.old self.new }
        ensures costs { AsksAtMost most self.old.life self.new.life }
    {
        let Some(journal) = &self.journal else {
            return Err(Error::Closed);
        };
        let full = journal.size() / self.page_size.get() as u64;
        let mut digesting = self.take_digesting(alloc);
        let end = full.min((digesting.pages() as u64).saturating_add(most));
        let result = self.digest_pages(alloc, &mut digesting, end);
        self.keep_digesting(digesting);
        result
    }

    // Takes the digests so far, and leaves none.
    fn take_digesting(&mut self, alloc: Global) -> SegmentDigesting<D>
        ensures taken { self.new ≡ record self.old { digested = 0 } }
        ensures pages { result.digested.pages ≡ self.old.digested }
        ensures digested { HasDigests D.digest_of self.old result }
    {
        let begun = SegmentDigesting::new(alloc, self.page_size);
        mem::replace(&mut self.digesting, begun)
    }

    // Keeps the digests so far.
    fn keep_digesting(&mut self, digesting: SegmentDigesting<D>)
        requires digested { HasDigests D.digest_of self.old digesting }
        ensures { self.new ≡ record self.old { digested = digesting.digested.pages } }
    {
        self.digesting = digesting;
    }

    // Digests the content's next pages, all that begin before page `end`. After an error those are
    // digested that were before it.
    fn digest_pages(
        &mut self,
        alloc: Global,
        digesting: &mut SegmentDigesting<D>,
        end: u64,
    ) -> Result<(), Error>
        requires owned { IsOwned H.sum_of R.sum_of self.old }
        requires there { HasJournal self.old.journal (λ w. Unit {0}) }
        requires whole { end * self.old.page_size ≤ owned_size self.old.journal }
        requires digested { HasDigests D.digest_of self.old digesting.old }
        ensures goes { PagesGo self.old self.new result }
        ensures all { IfOk result (λ u. end ≤ digesting.new.digested.pages) }
        ensures further { digesting.old.digested.pages ≤ digesting.new.digested.pages }
        ensures few { digesting.new.digested.pages ≤ max digesting.old.digested.pages end }
        ensures digested { HasDigests D.digest_of self.new digesting.new }
        ensures ready { IsOwned H.sum_of R.sum_of self.new }
        ensures leaves { OwnedReadLeaves H.sum_of R.sum_of self.old self.new }
        ensures costs { let most = end - digesting.old.digested.pages in
            AsksAtMost most self.old.life self.new.life }
    {
        let mut page = Vec::new(alloc);
        page.resize(self.page_size.get() as usize, 0)?;
        for n in digesting.pages() as u64..end {
            self.digest_page(n, &mut page, digesting)?;
        }
        Ok(())
    }

    // Digests page `n` of the content, the next one. `page` is a buffer for it.
    fn digest_page(
        &mut self,
        n: u64,
        page: &mut Vec<u8>,
        digesting: &mut SegmentDigesting<D>,
    ) -> Result<(), Error>
        requires owned { IsOwned H.sum_of R.sum_of self.old }
        requires buffer { length page.old.items ≡ self.old.page_size }
        requires next { digesting.old.digested.pages ≡ n }
        requires whole { n * self.old.page_size + self.old.page_size
            ≤ owned_size self.old.journal }
        requires digested { HasDigests D.digest_of self.old digesting.old }
        ensures goes { PagesGo self.old self.new result }
        ensures more { IfOk result (λ u. digesting.new.digested.pages ≡ n + 1) }
        ensures kept { IfErr result (λ e. digesting.new.digested ≡ digesting.old.digested) }
        ensures buffer { length page.new.items ≡ length page.old.items }
        ensures digested { HasDigests D.digest_of self.new digesting.new }
        ensures ready { IsOwned H.sum_of R.sum_of self.new }
        ensures leaves { OwnedReadLeaves H.sum_of R.sum_of self.old self.new }
        ensures costs { AsksAtMost 1 self.old.life self.new.life }
    {
        // The size is a `u64`: the proof takes from this that the page's offset is one.
        let _ = self.size();
        self.read_content(page, n * self.page_size.get() as u64)?;
        are_bytes(page);
        digesting.take_page(page)?;
        Ok(())
    }

    // Fills a buffer with bytes of the content.
    fn read_content(&mut self, bytes: &mut [u8], offset: u64) -> Result<(), Error>
        requires owned { IsOwned H.sum_of R.sum_of self.old }
        requires within { offset + length bytes.old ≤ owned_size self.old.journal }
        ensures goes { OwnedContentGoes offset bytes.old bytes.new self.old self.new result }
        ensures ready { IsOwned H.sum_of R.sum_of self.new }
        ensures leaves { OwnedReadLeaves H.sum_of R.sum_of self.old self.new }
        ensures costs { let most = content_calls self.old.journal (offset, length bytes.old) in
            AsksAtMost most self.old.life self.new.life }
    {
        let Some(journal) = &self.journal else {
            return Err(Error::Closed);
        };
        match journal.read_content(&mut self.blob, &mut self.cache, bytes, offset) {
            Ok(()) => Ok(()),
            Err(error) => Err(Error::Layer(error)),
        }
    }

    /// Whether there is no journal.
    pub fn is_closed(&self) -> bool
        ensures { result ≡ is_none self.now.journal }
    {
        self.journal.is_none()
    }

    /// Lets the journal go. What wasn't committed may be lost.
    pub fn forget(&mut self)
        ensures lets { self.new ≡ without_journal self.old }
    {
        self.journal = None;
    }

    /// The logical bytes of the journal; 0 where there is none.
    pub fn size(&self) -> u64
        ensures { result ≡ owned_size self.now.journal }
    {
        match &self.journal {
            Some(journal) => journal.size(),
            None => 0,
        }
    }
}

// Does nothing: its clause says what a proof takes from the type.
fn are_bytes(bytes: &[u8])
    ensures { EachIsByte bytes.now }
{
    let _ = bytes;
}
