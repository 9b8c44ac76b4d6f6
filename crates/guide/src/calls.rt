// The calls of a writer, one after another.
ghost use Rattle.std.specs.Prelude.{IfOk};
ghost use Rattle.cache.specs.Pages.{IsFresh};
ghost use Rattle.disk.specs.History.{life_of};
ghost use Rattle.paged.specs.Ready.{IsReady};

use cache::CacheRef;
use crc32c::Crc32c;
use disk::{Blob, Error, IoBuf, ReadOptions, VecBlob};
use page::Sum;
use paged::{Outlook, Recovery, Writer, look, recover};
use std::alloc::Global;
use std::num::{NonZeroU16, NonZeroUsize};

/// The logical bytes of a page.
pub const PAGE_SIZE: u16 = 16;

/// The bytes that a writer may hold back.
pub const CAPACITY: usize = 32;

/// The pages that a cache may hold.
pub const PAGES: usize = 4;

/// An empty cache.
pub fn new_cache(alloc: Global) -> Result<CacheRef, Error>
    ensures { IfOk result (λ cache. IsFresh cache) }
{
    let page_size = NonZeroU16::new(PAGE_SIZE).unwrap_or(NonZeroU16::MIN);
    let pages = NonZeroUsize::new(PAGES).unwrap_or(NonZeroUsize::MIN);
    CacheRef::new(alloc, page_size, pages)
}

/// Opens a new blob, appends, commits and reads.
pub fn keep(alloc: Global) -> Result<IoBuf, Error> {
    let mut blob = VecBlob::new(alloc);
    let mut cache = new_cache(alloc)?;
    let recovery = open::<Crc32c>(alloc, &mut blob, &mut cache)?;
    let writer: Writer<VecBlob, Crc32c> = Writer::from(recovery);
    let (writer, offset) = writer.append(&mut blob, &mut cache, b"hello")?;
    let writer = writer.sync(&mut blob, &mut cache)?;
    writer.read_at(&mut blob, &mut cache, offset, 5)?.coalesce()
}

/// A blob in memory, recovered.
pub fn open<H: Sum>(
    alloc: Global,
    blob: &mut VecBlob,
    cache: &mut CacheRef,
) -> Result<Recovery<VecBlob, H>, Error>
    requires fresh { IsFresh cache.old }
    ensures ready { IfOk result (λ w. IsReady H.sum_of w cache.new (life_of blob.new.history)) }
{
    let size = blob.len();
    recover::<VecBlob, H>(alloc, blob, size, CAPACITY, cache, NonZeroUsize::MIN)
}

/// What a recovery with pages of this size would make of a blob, which stays as it is.
pub fn look_at(alloc: Global, blob: &mut VecBlob, page_size: u16) -> Result<Outlook, Error> {
    let size = blob.len();
    let page_size = NonZeroU16::new(page_size).unwrap_or(NonZeroU16::MIN);
    look::<VecBlob, Crc32c>(alloc, blob, size, page_size, NonZeroUsize::MIN)
}

/// Makes a snapshot, and reads it.
fn look_back<B: Blob, H: Sum>(
    writer: Writer<B, H>,
    blob: &mut B,
    cache: &mut CacheRef,
) -> Result<IoBuf, Error>
    requires ready { IsReady H.sum_of writer cache.old (B.life blob.old) }
{
    let (_writer, snapshot) = writer.snapshot(blob, cache)?;
    let size = snapshot.size() as usize;
    snapshot.read_at(blob, cache, 0, size)?.coalesce()
}

/// Replays what was appended, from the second byte on.
fn play_back<B: Blob, H: Sum>(
    writer: Writer<B, H>,
    blob: &mut B,
    cache: &mut CacheRef,
) -> Result<IoBuf, Error>
    requires ready { IsReady H.sum_of writer cache.old (B.life blob.old) }
{
    let options = ReadOptions::default();
    let (_writer, mut replay) = writer.replay(blob, cache, NonZeroUsize::MIN, options)?;
    replay.seek_to(1)?;
    if !replay.ensure(blob, 4)? {
        return Err(Error::BlobInsufficientLength);
    }
    replay.copy_to_bytes(4)
}

/// Starts a sync, appends meanwhile, and waits.
fn overlap<B: Blob, H: Sum>(
    writer: Writer<B, H>,
    blob: &mut B,
    cache: &mut CacheRef,
) -> Result<u64, Error>
    requires ready { IsReady H.sum_of writer cache.old (B.life blob.old) }
{
    let (writer, _) = writer.append(blob, cache, b"hello")?;
    let (writer, _started) = writer.start_sync(blob, cache)?;
    let (writer, offset) = writer.append(blob, cache, b" and more")?;
    let _writer = writer.wait_for_sync(blob)?;
    Ok(offset)
}

/// Appends twice through a writer that stays where it is, and reads what was appended last.
fn append_in_place<B: Blob, H: Sum>(
    writer: &mut Writer<B, H>,
    blob: &mut B,
    cache: &mut CacheRef,
) -> Result<IoBuf, Error>
    requires ready { IsReady H.sum_of writer.old cache.old (B.life blob.old) }
{
    writer.append_lent(blob, cache, b"hello")?;
    let offset = writer.append_lent(blob, cache, b" in its place")?;
    writer.read_at(blob, cache, offset, 13)?.coalesce()
}

/// Opens a new blob, commits, and looks at it with its page size and with another.
pub fn keep_and_look(alloc: Global) -> Result<(Outlook, Outlook), Error> {
    let mut blob = VecBlob::new(alloc);
    let mut cache = new_cache(alloc)?;
    let recovery = open::<Crc32c>(alloc, &mut blob, &mut cache)?;
    let (recovery, _) = recovery.append(&mut blob, &mut cache, b"hello")?;
    drop(recovery.sync(&mut blob, &mut cache)?);
    let right = look_at(alloc, &mut blob, PAGE_SIZE)?;
    let wrong = look_at(alloc, &mut blob, PAGE_SIZE / 2)?;
    Ok((right, wrong))
}

/// Opens a new blob, appends, and makes a snapshot.
pub fn keep_a_snapshot(alloc: Global) -> Result<IoBuf, Error> {
    let mut blob = VecBlob::new(alloc);
    let mut cache = new_cache(alloc)?;
    let recovery = open::<Crc32c>(alloc, &mut blob, &mut cache)?;
    let (recovery, _) = recovery.append(&mut blob, &mut cache, b"hello and goodbye")?;
    look_back(Writer::from(recovery), &mut blob, &mut cache)
}

/// Opens a new blob, appends, and replays it.
pub fn keep_a_replay(alloc: Global) -> Result<IoBuf, Error> {
    let mut blob = VecBlob::new(alloc);
    let mut cache = new_cache(alloc)?;
    let recovery = open::<Crc32c>(alloc, &mut blob, &mut cache)?;
    let (recovery, _) = recovery.append(&mut blob, &mut cache, b"hello")?;
    play_back(Writer::from(recovery), &mut blob, &mut cache)
}

/// Opens a new blob, and overlaps a sync with an append.
pub fn keep_and_go_on(alloc: Global) -> Result<u64, Error> {
    let mut blob = VecBlob::new(alloc);
    let mut cache = new_cache(alloc)?;
    let recovery = open::<Crc32c>(alloc, &mut blob, &mut cache)?;
    overlap(Writer::from(recovery), &mut blob, &mut cache)
}

/// Opens a new blob, and appends through a writer that stays where it is.
pub fn keep_in_place(alloc: Global) -> Result<IoBuf, Error> {
    let mut blob = VecBlob::new(alloc);
    let mut cache = new_cache(alloc)?;
    let recovery = open::<Crc32c>(alloc, &mut blob, &mut cache)?;
    let mut writer: Writer<VecBlob, Crc32c> = Writer::from(recovery);
    append_in_place(&mut writer, &mut blob, &mut cache)
}
