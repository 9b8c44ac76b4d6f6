// Pages that are read together.
ghost use Rattle.std.specs.Prelude.{◌≡◌, ◌≢◌, ◌≤◌, ◌<◌, ◌+◌, ◌*◌, ◌^◌, [], All, length, List, ℕ};
ghost use Rattle.std.specs.Prelude.{OnOk, IfOk, IfErr};
ghost use Rattle.std.specs.Int.NonZero.{non_zero_u16_get};
ghost use Rattle.disk.specs.Disk.{Life, Delivers};
ghost use Rattle.page.specs.Page.{value_len};
ghost use Rattle.crash.specs.Looks.{Looked};
ghost use Rattle.paged_read.specs.Tail.{tail_at, IsView, CanRead};
ghost use Rattle.paged_read.specs.Ranges.{AsksTogether, page_ranges};
ghost use Rattle.paged_read.specs.Parts.{with_told};
ghost use Rattle.paged_read.specs.Batch.{DeliversPages, CachesFullPage, IsDelivered, AreMarked};
ghost use Rattle.paged_read.specs.Batch.{KeepsFault, CanPutPiece, IsTold, IsLack, ReadsLacks};
ghost use Rattle.paged_read.specs.Batch.{pieces_in};
ghost use Rattle.paged_read.specs.Puts.{PutsInOrder, PutsSome, delivered_pages};

use crate::View;
use crate::batch::Batch;
use crate::full::{FOR_THE_CACHE, is_full};
use crate::lack::Lack;
use cache::CacheRef;
use disk::{Blob, Error, IoBuf};
use page::{CHECKSUM_SIZE, Sum};
use std::alloc::Global;
use std::num::NonZeroU16;

/// Reads these physical pages in one read of the device, and answers each with its number among
/// `pages`. Where there are no pages the device isn't asked.
pub(crate) fn fetch<B: Blob>(
    alloc: Global,
    page_size: NonZeroU16,
    blob: &mut B,
    pages: &[u64],
) -> Result<Vec<(usize, IoBuf)>, Error>
    requires fits { let size = non_zero_u16_get page_size + 12 in
        All (λ page. (page + 1) * size < 2 ^ 64) pages.now }
    requires there { let size = non_zero_u16_get page_size + 12 in
        All (λ page. (page + 1) * size ≤ length (B.life blob.old).present.readable) pages.now }
    ensures reads { let P = non_zero_u16_get page_size in
        DeliversPages P pages.now (B.life blob.old) (B.life blob.new) result }
    ensures asks { let P = non_zero_u16_get page_size in
        AsksTogether (page_ranges P pages.now) (B.life blob.old) (B.life blob.new) }
    ensures looked { Looked (B.life blob.old) (B.life blob.new) }
{
    let mut out = Vec::new(alloc);
    if pages.is_empty() {
        return Ok(out);
    }
    let size = u64::from(page_size.get()) + CHECKSUM_SIZE;
    let mut ranges = Vec::with_capacity(alloc, pages.len())?;
    for page in pages {
        ranges.push((*page * size, size as usize))?;
    }
    blob.read_many(alloc, &ranges, FOR_THE_CACHE, &mut out)?;
    Ok(out)
}

/// Puts a page in the cache, if it is full; else `InvalidChecksum`.
pub(crate) fn keep_page<H: Sum>(
    page_size: NonZeroU16,
    id: u64,
    cache: &mut CacheRef,
    page: u64,
    bytes: &IoBuf,
) -> Result<(), Error>
    requires whole { length bytes.now ≡ non_zero_u16_get page_size + 12 }
    requires size { cache.old.page_size ≡ non_zero_u16_get page_size }
    ensures { let P = non_zero_u16_get page_size in
        CachesFullPage H.sum_of P (id, page) bytes.now cache.old cache.new result }
{
    let bytes = bytes.as_ref();
    if !is_full::<H>(page_size, bytes) {
        return Err(Error::InvalidChecksum);
    }
    cache.keep(id, page, &bytes[..usize::from(page_size.get())]);
    Ok(())
}

impl<B, H: Sum> View<'_, B, H> {
    /// Puts delivered pages in the cache, in the order in which they came, up to the first that
    /// isn't full, and answers for each page of `pages` where it stands in `out`. `InvalidChecksum`
    /// for a page that isn't full. `OutOfMemory` comes before any page is put.
    fn keep_all(
        self,
        cache: &mut CacheRef,
        pages: &[u64],
        out: &[(usize, IoBuf)],
    ) -> Result<Vec<usize>, Error>
        requires size { cache.old.page_size ≡ non_zero_u16_get self.page_size }
        requires below { let t = tail_at self.page_size self.id self.tip.now in
            All (λ page. page < t.full_pages) pages.now }
        requires delivered { let P = non_zero_u16_get self.page_size in
            All (IsDelivered P (length pages.now)) out.now }
        ensures puts { let t = tail_at self.entry.page_size self.entry.id self.entry.tip.now in
            (life : Life) → CanRead t cache.old life.present
            → Delivers (page_ranges t.page_size pages.now) life.present.readable out.now
            → PutsInOrder H.sum_of t (delivered_pages pages.now out.now) life.present.readable
            cache.old
            cache.new result }
        ensures full { let P = non_zero_u16_get self.entry.page_size in
            OnOk result (All (λ page. value_len H.sum_of P page.1 ≡ P) out.now) }
        ensures found { IfOk result (λ at. AreMarked at.items out.now (length out.now)) }
        ensures long { IfOk result (λ at. length at.items ≡ length pages.now) }
        ensures err { let P = non_zero_u16_get self.entry.page_size in
            IfErr result (KeepsFault H.sum_of P out.now) }
    {
        let mut at = Vec::new(self.alloc);
        at.resize(pages.len(), 0usize)?;
        for index in 0..out.len() {
            let (number, bytes) = &out[index];
            keep_page::<H>(self.page_size, self.id, cache, pages[*number], bytes)?;
            at[*number] = index;
        }
        Ok(at)
    }
}

/// Copies pieces of pages to their places in the buffer.
fn fill(buf: &mut [u8], lacks: &[Lack], at: &[usize], out: &[(usize, IoBuf)])
    requires { All (CanPutPiece at.now out.now (length buf.old)) lacks.now }
    ensures told { (P : ℕ) (content : List ℕ) → All (IsTold P content at.now out.now) lacks.now
        → buf.new ≡ with_told P content (pieces_in lacks.now) buf.old }
    ensures size { length buf.new ≡ length buf.old }
{
    for lack in lacks {
        let piece = lack.piece;
        let (_, bytes) = &out[at[lack.number]];
        let part = &bytes.as_ref()[piece.skip..piece.skip + piece.len];
        buf[piece.place..piece.place + piece.len].copy_from_slice(part);
    }
}

impl<B: Blob, H: Sum> View<'_, B, H> {
    /// Reads the pages that a batch lacks, together, puts them in the cache, and copies their
    /// pieces to their offsets. Where a page can't be read, those that came before it stay in the
    /// cache. Where the batch lacks no page the call takes no memory and asks no device.
    pub(crate) fn read_lacks(
        self,
        blob: &mut B,
        cache: &mut CacheRef,
        buf: &mut [u8],
        batch: &Batch,
    ) -> Result<(), Error>
        requires view { IsView (non_zero_u16_get self.page_size) self.tip.now }
        requires can { let t = tail_at self.page_size self.id self.tip.now in
            CanRead t cache.old (B.life blob.old).present }
        requires below { let t = tail_at self.page_size self.id self.tip.now in
            All (λ page. page < t.full_pages) batch.now.pages.items }
        requires lacks { let P = non_zero_u16_get self.page_size in
            All (IsLack P batch.now.pages.items (length buf.old)) batch.now.lacks.items }
        ensures reads { let t = tail_at self.entry.page_size self.entry.id self.entry.tip.now in
            ReadsLacks H.sum_of t batch.now.pages.items batch.now.lacks.items buf.old buf.new
            (B.life blob.old) (B.life blob.new) result }
        ensures asks { let P = non_zero_u16_get self.entry.page_size in
            let asked = page_ranges P batch.now.pages.items in
            AsksTogether asked (B.life blob.old) (B.life blob.new) }
        ensures looked { Looked (B.life blob.old) (B.life blob.new) }
        ensures puts { let t = tail_at self.entry.page_size self.entry.id self.entry.tip.now in
            let readable = (B.life blob.old).present.readable in
            PutsSome H.sum_of t batch.now.pages.items readable cache.old cache.new result }
        ensures refused { IfErr result (λ e. batch.now.pages.items ≢ []) }
        ensures size { length buf.new ≡ length buf.old }
    {
        if batch.pages.as_slice().is_empty() {
            return Ok(());
        }
        let out = fetch(self.alloc, self.page_size, blob, &batch.pages)?;
        let at = self.keep_all(cache, &batch.pages, &out)?;
        fill(buf, &batch.lacks, &at, &out);
        Ok(())
    }
}
