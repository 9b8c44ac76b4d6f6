// A content in a file of which nothing is believed.
ghost use Rattle.std.specs.Prelude.{◌≡◌, ◌↔◌, ◌<◌, ◌≤◌, ◌+◌, ◌*◌, IfErr, IfOk, length};
ghost use Rattle.std.specs.Prelude.{true};
ghost use Rattle.std.specs.Int.NonZero.{non_zero_u16_get};
ghost use Rattle.page_digests.specs.Contents.{HoldsFrom, IsOpenedContent, unread};
ghost use Rattle.page_digests.specs.Steps.{LoadGoes, PieceGoes, RangeAppendGoes};
ghost use Rattle.page_digests.specs.Contents.{PagedReadGoes, PagedReadIntoGoes, SoundGoes};
ghost use Rattle.page_digests.specs.Reads.{TopFails};
ghost use Rattle.page_digests.specs.Rebuilds.{RebuildGoes};
ghost use Rattle.page_digests.specs.Pages.{pages_of_len, top_len};

use crate::error::Error;
use crate::levels::Levels;
use crate::list::PagedList;
use crate::pages::{BETWEEN, LEN_LIMIT, list_len, page_len};
use crate::reading::read_compared;
use crate::rebuilding::rebuild_by;
use crate::seal::Seal;
use crate::source::Source;
use crate::unopened::Unopened;
use digest::Digest;
use std::alloc::Global;
use std::marker::Model;
use std::num::NonZeroU16;

/// A content in a file, and its list in another. Each page of both is compared with its digest
/// before it is used. The page of the content that was read last is held, and the 129 pages of the
/// list that were used last, so that a read in them asks for nothing.
#[derive(Drop)]
pub struct PagedContent<F: Source, D: Digest> {
    file: F,
    list: PagedList<F, D>,
    seal: Seal,
    page_size: usize,
    cached: Option<usize>,
    page: Vec<u8>,
}

impl<F: Source, D: Digest> Model for PagedContent<F, D> {
    ghost use Rattle.page_digests.specs.Contents.{PagedState};
    ghost use Rattle.page_digests.specs.Steps.{IsPaged};

    ghost Value = { PagedState };

    ghost view = { λ c. record {
      seal = c.seal;
      page_size = c.page_size;
      cached = c.cached;
      cached_list = c.list.cached;
      reads = F.reads c.file;
      list_reads = c.list.reads;
    } };

    ghost invariant = { λ c. IsPaged D.digest_of c.list c.seal c.page_size c.cached c.page.items };
}

impl<F: Source + Drop, D: Digest> PagedContent<F, D> {
    /// Opens the content that has this seal, by pages of `page_size` bytes. In `file` 12 bytes of
    /// other things stand behind each page of the content; `list_file` holds the list and then the
    /// top. This reads the top: `Damaged` if the root isn't its digest. After an error both files
    /// are given back.
    pub fn open(
        alloc: Global,
        file: F,
        list_file: F,
        seal: Seal,
        page_size: NonZeroU16,
    ) -> Result<Self, Unopened<F>>
        requires { seal.len < LEN_LIMIT }
        ensures content { let P = non_zero_u16_get page_size in let d = D.digest_of in
            IfOk result (λ c. IsOpenedContent d P seal (F.reads file) (F.reads list_file) c) }
        ensures fails { let P = non_zero_u16_get page_size in
            IfErr result (λ u. (F.reads u.file ≡ F.reads file)
            × TopFails D.digest_of P seal (F.reads list_file) (F.reads u.list_file) u.error) }
    {
        let page_size = usize::from(page_size.get());
        let whole = list_len(seal.len as usize, page_size);
        let len = list_len(whole, page_size);
        let mut list_file = list_file;
        let mut top = Vec::new(alloc);
        match read_compared::<F, D>(&mut list_file, whole as u64, len, &seal.root, &mut top) {
            Ok(true) => Ok(PagedContent {
                file,
                list: PagedList::new(alloc, list_file, seal, page_size, top),
                seal,
                page_size,
                cached: None,
                page: Vec::new(alloc),
            }),
            Ok(false) => Err(Unopened {
                error: Error::Damaged,
                file,
                list_file,
            }),
            Err(error) => Err(Unopened {
                error,
                file,
                list_file,
            }),
        }
    }

    /// The content that has this seal, by pages of `page_size` bytes, whose top is known. The files
    /// are as in [`open`](PagedContent::open). This reads nothing.
    pub fn over(
        alloc: Global,
        file: F,
        list_file: F,
        seal: Seal,
        page_size: NonZeroU16,
        top: Vec<u8>,
    ) -> Self
        requires limit { seal.len < LEN_LIMIT }
        requires root { D.digest_of top.items ≡ seal.root }
        requires len { length top.items ≡ top_len (non_zero_u16_get page_size) seal.len }
        ensures { let P = non_zero_u16_get page_size in
            result ≡ unread P seal (F.reads file) (F.reads list_file) }
    {
        let page_size = usize::from(page_size.get());
        PagedContent {
            file,
            list: PagedList::new(alloc, list_file, seal, page_size, top),
            seal,
            page_size,
            cached: None,
            page: Vec::new(alloc),
        }
    }

    /// Builds the levels again from the content's file, as
    /// [`rebuild_levels`](crate::rebuild_levels) does. The list that is read stays the same until
    /// [`use_list`](PagedContent::use_list) puts another one in its place.
    pub fn rebuild(&mut self, alloc: Global) -> Result<Levels, Error>
        ensures goes { RebuildGoes D.digest_of self.old.page_size self.old.seal self.old.reads
            self.new.reads result }
        ensures rest { self.new ≡ record self.old { reads = self.new.reads } }
        ensures root { IfOk result (λ l. D.digest_of l.top.items ≡ self.old.seal.root) }
        ensures top { let P = self.old.page_size in
            IfOk result (λ l. length l.top.items ≡ top_len P self.old.seal.len) }
    {
        rebuild_by::<F, D>(alloc, &mut self.file, &self.seal, self.page_size)
    }

    /// Reads the list from another file from now on, whose top is known. This reads nothing.
    pub fn use_list(&mut self, alloc: Global, list_file: F, top: Vec<u8>)
        requires root { D.digest_of top.items ≡ self.old.seal.root }
        requires len { length top.items ≡ top_len self.old.page_size self.old.seal.len }
        ensures { self.new
            ≡ record self.old { cached_list = None; list_reads = F.reads list_file } }
    {
        self.list = PagedList::new(alloc, list_file, self.seal, self.page_size, top);
    }

    /// What is kept of the content.
    pub fn seal(&self) -> Seal
        ensures { result ≡ self.now.seal }
    {
        self.seal
    }

    /// How many bytes the content has, fewer than [`LEN_LIMIT`].
    pub fn len(&self) -> u64
        ensures len { result ≡ self.now.seal.len }
        ensures fits { result < LEN_LIMIT }
    {
        self.seal.len
    }

    /// How many pages the content has.
    pub fn page_count(&self) -> u64
        ensures { result ≡ pages_of_len self.now.page_size self.now.seal.len }
    {
        self.seal.len.div_ceil(self.page_size as u64)
    }

    /// Whether the file holds page `number` as it was. This reads the page anew, also if it was
    /// read last. `Damaged` if a page of the list isn't as it was, which has the page's digest.
    #[tactic(auto, using(crate::proofs::Paging::page_within))]
    pub fn page_is_sound(&mut self, number: u64) -> Result<bool, Error>
        requires { number < pages_of_len self.old.page_size self.old.seal.len }
        ensures { SoundGoes D.digest_of number self.old self.new result }
    {
        self.cached = None;
        let i = number as usize;
        let digest = self.list.digest(i)?;
        let offset = (i * (self.page_size + BETWEEN)) as u64;
        let len = page_len(self.seal.len as usize, self.page_size, i);
        let is_sound = read_compared::<F, D>(&mut self.file, offset, len, &digest, &mut self.page)?;
        if !is_sound {
            return Ok(false);
        }
        self.cached = Some(i);
        Ok(true)
    }

    // Whether page `number` was read last.
    fn holds(&self, number: usize) -> bool
        ensures { (result ≡ true) ↔ (self.now.cached ≡ Some number) }
    {
        self.cached == Some(number)
    }

    /// The bytes of the content from byte `offset` on that are in the page that was read last, up to
    /// the page's end. None if no page was read yet, or the byte isn't in it. This reads nothing.
    pub fn held(&self, offset: u64) -> &[u8]
        ensures { HoldsFrom D.digest_of offset self.now result.now }
    {
        let Some(number) = self.cached else {
            return &[];
        };
        match (offset as usize).checked_sub(number * self.page_size) {
            Some(skip) if skip < self.page.len() => &self.page[skip..],
            _ => &[],
        }
    }

    // Reads page `number`, unless it was read last.
    fn load(&mut self, number: usize) -> Result<(), Error>
        requires { number < pages_of_len self.old.page_size self.old.seal.len }
        ensures { LoadGoes D.digest_of number self.old self.new result }
    {
        if self.holds(number) {
            return Ok(());
        }
        let is_sound = self.page_is_sound(number as u64)?;
        if is_sound {
            Ok(())
        } else {
            Err(Error::Damaged)
        }
    }

    // Appends bytes of the content from byte `at` on, at most `most`, up to the end of their page.
    // Answers how many.
    #[tactic(auto, using(crate::proofs::Paging::page_of_byte))]
    fn append_piece(&mut self, bytes: &mut Vec<u8>, at: usize, most: usize) -> Result<usize, Error>
        requires within { at + most ≤ self.old.seal.len }
        requires some { 0 < most }
        ensures { PieceGoes D.digest_of at most self.old self.new bytes.old.items bytes.new.items
            result }
    {
        let (number, skip) = (at / self.page_size, at % self.page_size);
        self.load(number)?;
        let n = most.min(self.page_size - skip);
        bytes.extend_from_slice(&self.page[skip..skip + n])?;
        Ok(n)
    }

    // Appends a range of the content. After an error part of it may be appended.
    fn append_range(&mut self, bytes: &mut Vec<u8>, offset: usize, len: usize) -> Result<(), Error>
        requires { offset + len ≤ self.old.seal.len }
        ensures { RangeAppendGoes D.digest_of offset len self.old self.new bytes.old.items
            bytes.new.items result }
    {
        // The use of a field opens the invariant, from which the proof takes that no sum overflows.
        let _ = &self.seal;
        let mut done = 0;
        while done < len {
            done += self.append_piece(bytes, offset + done, len - done)?;
        }
        Ok(())
    }

    /// Appends the `len` bytes of the content from byte `offset` on to a buffer. After an error the
    /// buffer is as it was. `Damaged` if a page that the range touches isn't as it was, or a page
    /// of the list with its digest. The other pages can still be read.
    pub fn read_into(&mut self, bytes: &mut Vec<u8>, offset: u64, len: usize) -> Result<(), Error>
        requires { offset + len ≤ self.old.seal.len }
        ensures { PagedReadIntoGoes D.digest_of offset len self.old self.new bytes.old.items
            bytes.new.items result }
    {
        let before = bytes.len();
        let result = self.append_range(bytes, offset as usize, len);
        if result.is_err() {
            bytes.truncate(before);
        }
        result
    }

    /// The `len` bytes of the content from byte `offset` on. `Damaged` if a page that the range
    /// touches isn't as it was, or a page of the list with its digest. The other pages can still be
    /// read.
    pub fn read(&mut self, alloc: Global, offset: u64, len: usize) -> Result<Vec<u8>, Error>
        requires { offset + len ≤ self.old.seal.len }
        ensures { PagedReadGoes D.digest_of offset len self.old self.new result }
    {
        let mut bytes = Vec::with_capacity(alloc, len)?;
        self.append_range(&mut bytes, offset as usize, len)?;
        Ok(bytes)
    }
}
