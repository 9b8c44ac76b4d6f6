// The bytes of a flush: physical pages, of which the first repeats the durable slot. A known slot,
// where there is one, holds the length and the checksum of the first bytes of a page, which needn't
// be summed again.
ghost use Rattle.std.specs.Prelude.{◌≡◌, ◌<◌, ◌≤◌, ◌^◌, ◌*◌, ◌++◌, ◌+◌, length, replicate, All};
ghost use Rattle.std.specs.Prelude.{IfOk, OnOk, IsOkUnless};
ghost use Rattle.std.specs.List.{concat};
ghost use Rattle.page.specs.Slot.{other};
ghost use Rattle.page.specs.Page.{slot_bytes};
ghost use Rattle.page.specs.Footer.{footer_bytes};
ghost use Rattle.crash.specs.Built.{kept_slot, kept_bytes, footer, page_of};
ghost use Rattle.paged.specs.Flush.{TellsFirst, TellsFirstPage, footers_of, with_footers};

use bytes::Bytes;
use disk::{Error, IoBuf, IoBufs};
use page::{ActiveChecksum, CHECKSUM_SIZE, Checksum, Slot, Sum};
use std::alloc::Global;

/// The bytes of a footer.
const FOOTER: usize = CHECKSUM_SIZE as usize;

/// The checksum of these bytes. The known slot, where there is one, covers the first of them.
fn sum_after<H: Sum>(known: Option<ActiveChecksum>, chunk: &[u8]) -> u32
    requires { TellsFirst H.sum_of known chunk.now }
    ensures { result ≡ H.sum_of chunk.now }
{
    match known {
        None => H::sum(chunk),
        Some(first) => H::sum_from(chunk, usize::from(first.len), first.crc),
    }
}

/// The slot that a page with these bytes gets: the one beside the durable slot, which is kept. The
/// known slot, where there is one, covers the first of the bytes.
fn new_slot<H: Sum>(
    durable: Option<ActiveChecksum>,
    known: Option<ActiveChecksum>,
    chunk: &[u8],
) -> ActiveChecksum
    requires small { length chunk.now < 2 ^ 16 }
    requires known { TellsFirst H.sum_of known chunk.now }
    ensures { result ≡ record {
      slot = other (kept_slot durable);
      len = length chunk.now;
      crc = H.sum_of chunk.now;
    } }
{
    let slot = match durable {
        None => Slot::First,
        Some(kept) => kept.slot.other(),
    };
    ActiveChecksum::new(slot, chunk.len() as u16, sum_after::<H>(known, chunk))
}

/// A footer with the durable slot as it is, and the new checksum in the other one.
fn footer_with(durable: Option<ActiveChecksum>, new: ActiveChecksum) -> Checksum
    ensures { footer_bytes result
        ≡ footer (kept_slot durable) (kept_bytes durable) (slot_bytes new.len new.crc) }
{
    let Some(kept) = durable else {
        return Checksum::new(new.len, new.crc);
    };
    match kept.slot {
        Slot::First => Checksum {
            len1: kept.len,
            crc1: kept.crc,
            len2: new.len,
            crc2: new.crc,
        },
        Slot::Second => Checksum {
            len1: new.len,
            crc1: new.crc,
            len2: kept.len,
            crc2: kept.crc,
        },
    }
}

/// Adds zeros. `OutOfMemory` alone.
fn push_zeros(out: &mut Vec<u8>, count: usize) -> Result<(), Error>
    requires { count < 2 ^ 16 }
    ensures zeros { OnOk result (out.new.items ≡ out.old.items ++ replicate count 0) }
    ensures err { IsOkUnless result Error.OutOfMemory }
{
    out.resize(out.len() + count, 0)?;
    Ok(())
}

/// Adds one physical page: the chunk, zeros up to the page size, and the footer. It answers the
/// chunk's slot. The known slot, where there is one, covers the first bytes of the chunk.
/// `OutOfMemory` alone.
pub(crate) fn push_page<H: Sum>(
    out: &mut Vec<u8>,
    page_size: usize,
    durable: Option<ActiveChecksum>,
    known: Option<ActiveChecksum>,
    chunk: &[u8],
) -> Result<ActiveChecksum, Error>
    requires small { page_size < 2 ^ 16 }
    requires fits { length chunk.now ≤ page_size }
    requires known { TellsFirst H.sum_of known chunk.now }
    ensures page { OnOk result
        (out.new.items ≡ out.old.items ++ page_of H.sum_of page_size durable chunk.now) }
    ensures slot { IfOk result (λ new. new ≡ record {
      slot = other (kept_slot durable);
      len = length chunk.now;
      crc = H.sum_of chunk.now;
    }) }
    ensures err { IsOkUnless result Error.OutOfMemory }
{
    let new = new_slot::<H>(durable, known, chunk);
    let padding = page_size - chunk.len();
    out.extend_from_slice(chunk)?;
    push_zeros(out, padding)?;
    out.extend_from_slice(&footer_with(durable, new).to_bytes())?;
    Ok(new)
}

/// The footers of full pages, joined. The first footer repeats the durable slot. The known slot,
/// where there is one, covers the first bytes of the first page. `OutOfMemory` alone.
fn footers_of<H: Sum>(
    alloc: Global,
    mut durable: Option<ActiveChecksum>,
    mut known: Option<ActiveChecksum>,
    pages: &[IoBuf],
) -> Result<Vec<u8>, Error>
    requires small { All (λ page. length page < 2 ^ 16) pages.now }
    requires known { TellsFirstPage H.sum_of known pages.now }
    ensures footers { IfOk result (λ out. out.items ≡ footers_of H.sum_of durable pages.now) }
    ensures err { IsOkUnless result Error.OutOfMemory }
{
    let mut out = Vec::with_capacity(alloc, pages.len().saturating_mul(FOOTER))?;
    for page in pages {
        let new = new_slot::<H>(durable, known, page.as_ref());
        out.extend_from_slice(&footer_with(durable, new).to_bytes())?;
        durable = None;
        known = None;
    }
    Ok(out)
}

/// Each page with its part of the footers after it, in a list with room for one buffer more. The
/// pages aren't copied. `OutOfMemory` alone.
fn with_footers(alloc: Global, pages: Vec<IoBuf>, footers: &IoBuf) -> Result<IoBufs, Error>
    requires all { length footers.now ≡ 12 * length pages.items }
    requires small { length footers.now < 2 ^ 64 }
    ensures bytes { IfOk result (λ bufs. concat bufs ≡ with_footers pages.items footers.now) }
    ensures err { IsOkUnless result Error.OutOfMemory }
{
    let mut bufs = IoBufs::with_capacity(alloc, pages.len().saturating_mul(2).saturating_add(1))?;
    let mut at = 0;
    for page in pages {
        bufs.append(page)?;
        bufs.append(footers.slice(at, at + FOOTER)?)?;
        at += FOOTER;
    }
    Ok(bufs)
}

/// The most bytes of a page that is copied beside its footer: a copy of so few costs less than two
/// buffers of a list, the page's bytes where they stand and its footer.
const MOST_COPIED: usize = 128;

/// The physical pages of full pages, as [`physical_pages`] gives them, copied to one buffer, which
/// is made for pages of `size` bytes. The list has room for one buffer more. `OutOfMemory` alone.
fn copied_pages<H: Sum>(
    alloc: Global,
    mut durable: Option<ActiveChecksum>,
    mut known: Option<ActiveChecksum>,
    pages: &[IoBuf],
    size: usize,
) -> Result<IoBufs, Error>
    requires small { All (λ page. length page < 2 ^ 16) pages.now }
    requires known { TellsFirstPage H.sum_of known pages.now }
    ensures bytes { IfOk result (λ bufs.
        concat bufs ≡ with_footers pages.now (footers_of H.sum_of durable pages.now)) }
    ensures err { IsOkUnless result Error.OutOfMemory }
{
    let room = size.saturating_add(FOOTER).saturating_mul(pages.len());
    let mut out = Vec::with_capacity(alloc, room)?;
    for page in pages {
        let new = new_slot::<H>(durable, known, page.as_ref());
        out.extend_from_slice(page.as_ref())?;
        out.extend_from_slice(&footer_with(durable, new).to_bytes())?;
        (durable, known) = (None, None);
    }
    let mut bufs = IoBufs::with_capacity(alloc, 2)?;
    bufs.append(IoBuf::from(Bytes::from_vec(out)?))?;
    Ok(bufs)
}

/// The physical pages of full pages. The first repeats the durable slot, and begins with the bytes
/// that the known slot covers, where there is one. The pages aren't copied, unless they have at
/// most [`MOST_COPIED`] bytes, and their footers are parts of one buffer. `OutOfMemory` alone.
pub(crate) fn physical_pages<H: Sum>(
    alloc: Global,
    durable: Option<ActiveChecksum>,
    known: Option<ActiveChecksum>,
    pages: Vec<IoBuf>,
) -> Result<IoBufs, Error>
    requires small { All (λ page. length page < 2 ^ 16) pages.items }
    requires known { TellsFirstPage H.sum_of known pages.items }
    ensures bytes { IfOk result (λ bufs.
        concat bufs ≡ with_footers pages.items (footers_of H.sum_of durable pages.items)) }
    ensures err { IsOkUnless result Error.OutOfMemory }
{
    let size = pages.first().map_or(0, |page| page.len());
    if size <= MOST_COPIED {
        return copied_pages::<H>(alloc, durable, known, &pages, size);
    }
    let footers = footers_of::<H>(alloc, durable, known, &pages)?;
    with_footers(alloc, pages, &IoBuf::from(Bytes::from_vec(footers)?))
}
