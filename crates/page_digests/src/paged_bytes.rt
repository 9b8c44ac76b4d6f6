// Bytes in a file, of which the digests of their pages are known.
ghost use Rattle.std.specs.Prelude.{◌≡◌, ◌↔◌, ◌<◌, ◌≤◌, ◌+◌, ◌-◌, ◌*◌, ◌^◌, [], length, true};
ghost use Rattle.std.specs.Prelude.{IfErr, IfOk};
ghost use Rattle.std.specs.Int.NonZero.{non_zero_u16_get};
ghost use Rattle.page_digests.specs.PagedBytes.{BytesGoes, BytesLoadGoes, CopyGoes, FetchGoes};
ghost use Rattle.page_digests.specs.PagedBytes.{HoldsGoes, IsOpenedBytes, IsPagedBytes, PutsAway};
ghost use Rattle.page_digests.specs.PagedBytes.{RootFails, TurnGoes};
ghost use Rattle.page_digests.specs.Pages.{digest_at, list_len, page_len};

use crate::error::Error;
use crate::held_pages::{HELD, HeldPage, HeldPages};
use crate::pages::{digest_at, list_len, page_len};
use crate::reading::read_compared;
use crate::source::Source;
use digest::Digest;
use std::alloc::{AllocError, Global};
use std::marker::Model;
use std::mem;
use std::num::NonZeroU16;

/// Bytes in a file of which nothing is believed, except for what their top proves: the digests of
/// their pages, joined. Each page is compared with its digest before it is used. The 129 pages that
/// were used last are held, so that a read in them asks for nothing, and compares nothing.
#[derive(Drop)]
pub struct PagedBytes<F: Source, D: Digest> {
    alloc: Global,
    file: F,
    start: usize,
    len: usize,
    page_size: usize,
    top: Vec<u8>,
    // The page that was used last, and its number.
    cached: Option<usize>,
    page: Vec<u8>,
    // The other pages that are held.
    held: HeldPages<D>,
}

/// Why some bytes aren't opened, and their file.
#[derive(Drop)]
pub struct UnopenedBytes<F> {
    /// Why their top isn't known.
    pub error: Error,
    /// The file.
    pub file: F,
}

impl<F: Source, D: Digest> Model for PagedBytes<F, D> {
    ghost use Rattle.page_digests.specs.PagedBytes.{BytesState, IsPagedBytes};

    ghost Value = { BytesState };

    ghost view = { λ b. record {
      start = b.start;
      len = b.len;
      page_size = b.page_size;
      top = b.top.items;
      cached = b.cached;
      page = b.page.items;
      held = b.held;
      reads = F.reads b.file;
    } };

    ghost invariant = { λ b. IsPagedBytes D.digest_of (record {
      start = b.start;
      len = b.len;
      page_size = b.page_size;
      top = b.top.items;
      cached = b.cached;
      page = b.page.items;
      held = b.held;
      reads = F.reads b.file;
    }) };
}

impl<F: Source + Drop, D: Digest> PagedBytes<F, D> {
    /// The `len` bytes from byte `start` of a file on, by pages of `page_size` bytes, whose digests
    /// are the top. This reads nothing.
    pub fn new(
        alloc: Global,
        file: F,
        start: usize,
        len: usize,
        page_size: usize,
        top: Vec<u8>,
    ) -> Self
        requires { IsPagedBytes D.digest_of (record {
          start = start;
          len = len;
          page_size = page_size;
          top = top.items;
          cached = None;
          page = [];
          held = [];
          reads = F.reads file;
        }) }
        ensures { result ≡ record {
          start = start;
          len = len;
          page_size = page_size;
          top = top.items;
          cached = None;
          page = [];
          held = [];
          reads = F.reads file;
        } }
    {
        PagedBytes {
            alloc,
            file,
            start,
            len,
            page_size,
            top,
            cached: None,
            page: Vec::new(alloc),
            held: HeldPages::new(alloc),
        }
    }

    /// Opens the `len` bytes from byte `start` of a file on, by pages of `page_size` bytes. Behind
    /// them stands their top. This reads it: `Damaged` if the root isn't its digest. After an error
    /// the file is given back.
    pub fn open(
        alloc: Global,
        file: F,
        start: usize,
        len: usize,
        page_size: NonZeroU16,
        root: &[u8; 32],
    ) -> Result<Self, UnopenedBytes<F>>
        requires fits { len < 2 ^ 57 }
        requires near { start < 2 ^ 62 }
        ensures opens_bytes { let P = non_zero_u16_get page_size in
            IfOk result (λ b. IsOpenedBytes D.digest_of start len P root.now (F.reads file) b) }
        ensures root_fails { let P = non_zero_u16_get page_size in let d = D.digest_of in
            IfErr result (λ u. RootFails d (start + len) (list_len P len) root.now
            (F.reads file) (F.reads u.file) u.error) }
    {
        let page_size = usize::from(page_size.get());
        let count = list_len(len, page_size);
        let mut file = file;
        let mut top = Vec::new(alloc);
        match read_compared::<F, D>(&mut file, (start + len) as u64, count, root, &mut top) {
            Ok(true) => Ok(PagedBytes::new(alloc, file, start, len, page_size, top)),
            Ok(false) => Err(UnopenedBytes {
                error: Error::Damaged,
                file,
            }),
            Err(error) => Err(UnopenedBytes { error, file }),
        }
    }

    // Whether page `number` was used last.
    fn holds(&self, number: usize) -> bool
        ensures { (result ≡ true) ↔ (self.now.cached ≡ Some number) }
    {
        self.cached == Some(number)
    }

    // Has page `number` as the one that was used last, and reads it, unless it is held.
    fn load(&mut self, number: usize) -> Result<(), Error>
        requires { number * self.old.page_size < self.old.len }
        ensures loads { BytesLoadGoes D.digest_of number self.old self.new result }
        ensures holds { HoldsGoes HELD number self.old self.new result }
    {
        if self.holds(number) {
            return Ok(());
        }
        let len = page_len(self.len, self.page_size, number);
        let digest = digest_at(&self.top, number);
        if self.turn_to(number, len, &digest)? {
            return Ok(());
        }
        self.fetch(number, len, &digest)
    }

    // Puts the page away that was used last, and takes page `number` in its place, which has this
    // length and this digest, if it is held. Answers whether it is.
    fn turn_to(&mut self, number: usize, len: usize, digest: &[u8; 32]) -> Result<bool, AllocError>
        requires within { number * self.old.page_size < self.old.len }
        requires len { len ≡ page_len self.old.page_size self.old.len number }
        requires digest { digest.now ≡ digest_at number self.old.top }
        ensures { TurnGoes HELD number digest.now len self.old self.new result }
    {
        let held = self.held.take(digest, len);
        self.put_away()?;
        let Some(page) = held else {
            return Ok(false);
        };
        self.page = page.into_bytes();
        self.cached = Some(number);
        Ok(true)
    }

    // Holds the page that was used last beside the others, if one was.
    fn put_away(&mut self) -> Result<(), AllocError>
        ensures { PutsAway HELD self.old self.new result }
    {
        let Some(number) = self.cached.take() else {
            return Ok(());
        };
        let digest = digest_at(&self.top, number);
        let bytes = mem::replace(&mut self.page, Vec::new(self.alloc));
        self.held.keep(HeldPage::new(digest, bytes))
    }

    // Reads page `number`, which has this length and this digest.
    fn fetch(&mut self, number: usize, len: usize, digest: &[u8; 32]) -> Result<(), Error>
        requires within { number * self.old.page_size < self.old.len }
        requires len { len ≡ page_len self.old.page_size self.old.len number }
        requires digest { digest.now ≡ digest_at number self.old.top }
        ensures { FetchGoes D.digest_of number self.old self.new result }
    {
        self.cached = None;
        let offset = (self.start + number * self.page_size) as u64;
        let is_sound = read_compared::<F, D>(&mut self.file, offset, len, digest, &mut self.page)?;
        if !is_sound {
            return Err(Error::Damaged);
        }
        self.cached = Some(number);
        Ok(())
    }

    // Copies the bytes from byte `at` on over those of a buffer from `done` on, up to the end of
    // the buffer or of the page. Answers how many.
    fn copy_piece(&mut self, bytes: &mut [u8], at: usize, done: usize) -> Result<usize, Error>
        requires some { done < length bytes.old }
        requires within { at + (length bytes.old - done) ≤ self.old.len }
        ensures { CopyGoes D.digest_of at done self.old self.new bytes.old bytes.new result }
    {
        let (number, skip) = (at / self.page_size, at % self.page_size);
        self.load(number)?;
        let n = (bytes.len() - done).min(self.page_size - skip);
        bytes[done..done + n].copy_from_slice(&self.page[skip..skip + n]);
        Ok(n)
    }

    /// Fills a buffer with the bytes from byte `at` on. `Damaged` if a page that they touch has
    /// another digest than the top has; the other pages can still be read. After an error the
    /// buffer may hold anything.
    pub fn read(&mut self, at: usize, bytes: &mut [u8]) -> Result<(), Error>
        requires { at + length bytes.old ≤ self.old.len }
        ensures { BytesGoes D.digest_of at self.old self.new bytes.old bytes.new result }
    {
        // The use of a field opens the invariant, from which the proof takes that no sum overflows.
        let _ = &self.top;
        let mut done = 0;
        while done < bytes.len() {
            done += self.copy_piece(bytes, at + done, done)?;
        }
        Ok(())
    }
}
