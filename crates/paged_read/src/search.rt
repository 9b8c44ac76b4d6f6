// Looking through the pages of a blob.
ghost use Rattle.std.specs.Prelude.{◌≡◌, ◌==◌, ◌+◌, ◌-◌, ◌*◌, ◌≤◌, ◌<◌, ◌^◌, ℕ, length, take, drop};
ghost use Rattle.std.specs.Prelude.{slice_index, Ok, IfOk, IsOkUnless, MatchOption, None, OnOk};
ghost use Rattle.std.specs.Int.NonZero.{non_zero_u16_get, non_zero_usize_get};
ghost use Rattle.page.specs.Page.{active, pages, pieces, text, text_of_pages};
ghost use Rattle.crash.specs.Built.{kept_len};
ghost use Rattle.paged_read.specs.Prefix.{prefix_of, last_prefix, prefix_pages, value_and_slot};
ghost use Rattle.paged_read.specs.Prefix.{HasBytes, bad_in, tip_of};
ghost use Rattle.paged_read.specs.Hand.{HandHasRoom, IsEmptyHand, kept_with};
ghost use Rattle.paged_read.specs.Scans.{LooksThrough, pages_from, prefix_from, ReadsUpToEnd};
ghost use Rattle.paged_read.specs.Scans.{text_of_first};
ghost use Rattle.paged_read.specs.Searches.{Finds, FindsLast, scan_bytes};
ghost use Rattle.paged_read.specs.Backward.{ReadsDownTo};

use crate::hand::Hand;
use crate::prefix::{Partial, Prefix};
use disk::{Blob, Error, IoBuf, ReadOptions};
use page::{ActiveChecksum, CHECKSUM_SIZE, Checksum, Slot, Sum};
use std::alloc::Global;
use std::num::{NonZeroU16, NonZeroUsize};

/// How many bytes a physical page has: `page_size` logical bytes and a footer of 12 bytes.
pub fn physical_page_size(page_size: NonZeroU16) -> u64
    ensures { result ≡ non_zero_u16_get page_size + 12 }
{
    u64::from(page_size.get()) + CHECKSUM_SIZE
}

/// How many pages a prefix has: its full pages, and one more if it has a partial value.
pub fn pages_of(prefix: &Prefix) -> u64
    requires { prefix.now.full_pages + 1 < 2 ^ 64 }
    ensures { result ≡ prefix_pages prefix.now }
{
    match prefix.partial {
        None => prefix.full_pages,
        Some(_) => prefix.full_pages + 1,
    }
}

/// Whether a slot covers a full page.
fn is_full(slot: Option<ActiveChecksum>, page_size: NonZeroU16) -> bool
    ensures { result ≡ (kept_len slot == non_zero_u16_get page_size) }
{
    matches!(slot, Some(slot) if slot.len == page_size.get())
}

/// The slot that covers the value of the physical page of `size` bytes at `at`. `None` where no
/// slot of the page verifies.
// Inlined, with what it calls, since a scan calls it for each page, and pages may be small.
#[inline(always)]
fn slot_at<H: Sum>(bytes: &[u8], at: usize, size: usize) -> Option<ActiveChecksum>
    requires { at + size ≤ length bytes.now }
    ensures slot { result ≡ active H.sum_of (size - 12) (take size (drop at bytes.now)) }
    ensures bytes { (i : ℕ) → slice_index (take size (drop at bytes.now)) i < 256 }
{
    Checksum::validate_page::<H>(&bytes[at..at + size])
}

/// The value of the page that stands at `at`, with its slot. `OutOfMemory` alone.
fn value_at(bytes: &IoBuf, at: usize, slot: Option<ActiveChecksum>) -> Result<Partial, Error>
    requires within { MatchOption slot (Unit {0}) (λ s. at + s.len ≤ length bytes.now) }
    requires fits { length bytes.now < 2 ^ 64 }
    ensures ok { IfOk result (λ p. p ≡ value_and_slot slot (drop at bytes.now)) }
    ensures err { IsOkUnless result Error.OutOfMemory }
{
    let Some(slot) = slot else {
        return Ok(None);
    };
    let value = bytes.slice(at, at + usize::from(slot.len))?;
    Ok(Some((value, slot)))
}

/// The prefix of the physical pages that these bytes are. `OutOfMemory` alone.
pub(crate) fn leading_pages<H: Sum>(page_size: NonZeroU16, bytes: &IoBuf) -> Result<Prefix, Error>
    ensures ok { let P = non_zero_u16_get page_size in
        IfOk result (λ p. p ≡ prefix_of H.sum_of P (pages P bytes.now)) }
    ensures bytes { let P = non_zero_u16_get page_size in
        IfOk result (λ p. HasBytes P p.full_pages bytes.now p.partial) }
    ensures err { IsOkUnless result Error.OutOfMemory }
{
    let size = physical_page_size(page_size) as usize;
    let count = bytes.len() / size;
    for page in 0..count {
        let slot = slot_at::<H>(bytes.as_ref(), page * size, size);
        if !is_full(slot, page_size) {
            return Ok(Prefix {
                full_pages: page as u64,
                partial: value_at(bytes, page * size, slot)?,
            });
        }
    }
    Ok(Prefix {
        full_pages: count as u64,
        partial: None,
    })
}

/// How many bytes a value has, 0 where there is none.
fn value_len(partial: &Partial) -> usize
    ensures { result ≡ length (tip_of partial.now) }
{
    match partial {
        None => 0,
        Some((value, _)) => value.len(),
    }
}

/// Adds the values of the physical pages in `bytes`, whose prefix is `prefix`, to `kept`, if the
/// caller wants them. They share the memory of what was read. `OutOfMemory` alone.
fn keep<H: Sum>(
    kept: &mut Option<Hand>,
    page_size: NonZeroU16,
    bytes: &IoBuf,
    prefix: &Prefix,
) -> Result<(), Error>
    requires prefix { let P = non_zero_u16_get page_size in
        prefix.now ≡ prefix_of H.sum_of P (pages P bytes.now) }
    requires room { HandHasRoom (non_zero_u16_get page_size) (length bytes.now) kept.old }
    ensures kept { let P = non_zero_u16_get page_size in
        OnOk result (kept.new ≡ kept_with (text H.sum_of P bytes.now) kept.old) }
    ensures err { IsOkUnless result Error.OutOfMemory }
{
    let Some(hand) = kept else {
        return Ok(());
    };
    let full = prefix.full_pages as usize * physical_page_size(page_size) as usize;
    hand.push(bytes.slice(0, full + value_len(&prefix.partial))?, 0)
}

/// Looks through the first `pages` pages of a blob, of `page_size` logical bytes each, from the
/// first one on. Answers how many are full, up to the first that isn't, and the value of that one,
/// if it has one. The blob must have these pages.
///
/// A read has at most as many whole physical pages as fit `buffer_size` bytes, or one page if none
/// fits. Pages after the read in which the search ends aren't read. If `kept` is some, it must be
/// empty: the call adds the values to it, one after the other, and they share the memory of what
/// was read.
///
/// `ReadFailed` where the device failed, `OutOfMemory` where memory was refused. The blob is only
/// read, even where the call fails.
pub fn scan<B: Blob, H: Sum>(
    alloc: Global,
    blob: &mut B,
    page_size: NonZeroU16,
    pages: u64,
    buffer_size: NonZeroUsize,
    kept: &mut Option<Hand>,
) -> Result<Prefix, Error>
    requires there { let old = B.life blob.old in let P = non_zero_u16_get page_size in
        (pages * (P + 12) ≤ length old.present.readable) × (pages * (P + 12) < 2 ^ 64) }
    requires empty { IsEmptyHand (non_zero_u16_get page_size) kept.old }
    ensures finds { let old = B.life blob.old in let new = B.life blob.new in
        let P = non_zero_u16_get page_size in
        Finds (prefix_of H.sum_of P (pieces pages (P + 12) old.present.readable)) old new result }
    ensures bytes { let old = B.life blob.old in let P = non_zero_u16_get page_size in
        IfOk result (λ p. HasBytes P p.full_pages old.present.readable p.partial) }
    ensures costs { let old = B.life blob.old in let new = B.life blob.new in
        let P = non_zero_u16_get page_size in
        ReadsUpToEnd H.sum_of P (scan_bytes P (non_zero_usize_get buffer_size)) 0 pages old new }
    ensures kept { let old = B.life blob.old in let P = non_zero_u16_get page_size in
        OnOk result (kept.new
        ≡ kept_with (text_of_first H.sum_of P pages old.present.readable) kept.old) }
{
    let options = ReadOptions::default();
    scan_keeping::<B, H>(alloc, blob, page_size, 0, pages, buffer_size, options, kept)
}

/// A [`scan`] from the page `first` on, with the caller's options for each read. Pages before
/// `first` count as full, and aren't read. Where `first` is `pages` no device is asked.
///
/// `BlobInsufficientLength` where the blob is shorter than `pages` physical pages. The other errors
/// are those of [`scan`].
pub fn scan_from<B: Blob, H: Sum>(
    alloc: Global,
    blob: &mut B,
    page_size: NonZeroU16,
    first: u64,
    pages: u64,
    buffer_size: NonZeroUsize,
    options: ReadOptions,
) -> Result<Prefix, Error>
    requires order { first ≤ pages }
    requires fits { pages * (non_zero_u16_get page_size + 12) < 2 ^ 64 }
    ensures looks { let old = B.life blob.old in let new = B.life blob.new in
        let P = non_zero_u16_get page_size in
        LooksThrough (pages * (P + 12)) (prefix_from H.sum_of P first pages old.present.readable)
        old new result }
    ensures bytes { let old = B.life blob.old in let P = non_zero_u16_get page_size in
        IfOk result (λ p. HasBytes P p.full_pages old.present.readable p.partial) }
    ensures costs { let old = B.life blob.old in let new = B.life blob.new in
        let P = non_zero_u16_get page_size in
        let most = scan_bytes P (non_zero_usize_get buffer_size) in
        ReadsUpToEnd H.sum_of P most first pages old new }
    ensures idle { first ≡ pages
        → (result ≡ Ok (record { full_pages = pages; partial = None }))
        × (B.life blob.new ≡ B.life blob.old) }
{
    let kept = &mut None;
    scan_keeping::<B, H>(
        alloc,
        blob,
        page_size,
        first,
        pages,
        buffer_size,
        options,
        kept,
    )
}

/// A [`scan_from`] that also adds the values of the pages that it reads to `kept`.
fn scan_keeping<B: Blob, H: Sum>(
    alloc: Global,
    blob: &mut B,
    page_size: NonZeroU16,
    first: u64,
    pages: u64,
    buffer_size: NonZeroUsize,
    options: ReadOptions,
    kept: &mut Option<Hand>,
) -> Result<Prefix, Error>
    requires order { first ≤ pages }
    requires fits { pages * (non_zero_u16_get page_size + 12) < 2 ^ 64 }
    requires empty { IsEmptyHand (non_zero_u16_get page_size) kept.old }
    ensures finds { let old = B.life blob.old in let new = B.life blob.new in
        let P = non_zero_u16_get page_size in
        LooksThrough (pages * (P + 12)) (prefix_from H.sum_of P first pages old.present.readable)
        old new result }
    ensures bytes { let old = B.life blob.old in let P = non_zero_u16_get page_size in
        IfOk result (λ p. HasBytes P p.full_pages old.present.readable p.partial) }
    ensures reads { let old = B.life blob.old in let new = B.life blob.new in
        let P = non_zero_u16_get page_size in
        let most = scan_bytes P (non_zero_usize_get buffer_size) in
        ReadsUpToEnd H.sum_of P most first pages old new }
    ensures idle { first ≡ pages
        → (result ≡ Ok (record { full_pages = pages; partial = None }))
        × (B.life blob.new ≡ B.life blob.old) }
    ensures kept { let old = B.life blob.old in let P = non_zero_u16_get page_size in
        let more = text_of_pages H.sum_of P (pages_from P (pages - first) first
        old.present.readable) in
        OnOk result (kept.new ≡ kept_with more kept.old) }
{
    let size = physical_page_size(page_size);
    let most = (buffer_size.get() as u64 / size).max(1);
    let mut done = first;
    while done < pages {
        let batch = most.min(pages - done);
        let bytes = blob.read_at(alloc, done * size, (batch * size) as usize, options)?;
        let prefix = leading_pages::<H>(page_size, &bytes)?;
        keep::<H>(kept, page_size, &bytes, &prefix)?;
        if prefix.full_pages < batch {
            return Ok(Prefix {
                full_pages: done + prefix.full_pages,
                partial: prefix.partial,
            });
        }
        done += batch;
    }
    Ok(Prefix {
        full_pages: pages,
        partial: None,
    })
}

/// Looks through the first `pages` pages of a blob, of `page_size` logical bytes each, from the
/// last one back, for one that has a value. Answers the pages up to and with that one, of which
/// those before it count as full. If it isn't full, the call also answers its bad slot, if it has
/// one: the slot that isn't the value's, if it neither verifies nor is all zero. The blob must have
/// these pages.
///
/// Each page is read once at most, by a read of its own. Pages before the last one that has a value
/// aren't read.
///
/// `ReadFailed` where the device failed, `OutOfMemory` where memory was refused. The blob is only
/// read, even where the call fails.
pub fn last_pages<B: Blob, H: Sum>(
    alloc: Global,
    blob: &mut B,
    page_size: NonZeroU16,
    mut pages: u64,
) -> Result<(Prefix, Option<Slot>), Error>
    requires there { let old = B.life blob.old in let P = non_zero_u16_get page_size in
        pages * (P + 12) ≤ length old.present.readable }
    requires fits { pages * (non_zero_u16_get page_size + 12) < 2 ^ 64 }
    ensures finds_last { let old = B.life blob.old in let new = B.life blob.new in
        let P = non_zero_u16_get page_size in
        let last = last_prefix H.sum_of P pages old.present.readable in
        FindsLast last (bad_in H.sum_of P old.present.readable last) old new result }
    ensures bytes { let old = B.life blob.old in let P = non_zero_u16_get page_size in
        IfOk result (λ r. HasBytes P r.0.full_pages old.present.readable r.0.partial) }
    ensures costs { let old = B.life blob.old in let new = B.life blob.new in
        let P = non_zero_u16_get page_size in
        let last = last_prefix H.sum_of P pages old.present.readable in
        ReadsDownTo (P + 12) ((prefix_pages last - 1) * (P + 12)) old new }
{
    let size = physical_page_size(page_size);
    while pages > 0 {
        let offset = (pages - 1) * size;
        let bytes = blob.read_at(alloc, offset, size as usize, ReadOptions::default())?;
        let slot = slot_at::<H>(bytes.as_ref(), 0, size as usize);
        if is_full(slot, page_size) {
            return Ok((
                Prefix {
                    full_pages: pages,
                    partial: None,
                },
                None,
            ));
        }
        let partial = value_at(&bytes, 0, slot)?;
        if partial.is_some() {
            let bad = Checksum::bad_slot::<H>(bytes.as_ref());
            return Ok((
                Prefix {
                    full_pages: pages - 1,
                    partial,
                },
                bad,
            ));
        }
        pages -= 1;
    }
    Ok((
        Prefix {
            full_pages: 0,
            partial: None,
        },
        None,
    ))
}
