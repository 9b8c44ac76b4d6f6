// What is read beside a writer that goes on: snapshots, their copies and replays, and other blobs on
// the same cache. Each contract says which bytes.
ghost use Rattle.std.specs.Prelude.{◌≡◌, ◌++◌, IfOk, IfSome, take, drop};
ghost use Rattle.std.specs.List.{concat};
ghost use Rattle.cache.specs.Pages.{IsFresh};
ghost use Rattle.disk.specs.History.{life_of};
ghost use Rattle.writer_state.specs.Sound.{content};
ghost use Rattle.page.specs.Page.{text};
ghost use Rattle.paged.specs.Ready.{IsReady};
ghost use Rattle.paged_read.specs.Snapshots.{LeavesReads};

use crate::calls::{CAPACITY, new_cache};
use cache::CacheRef;
use crc32c::Crc32c;
use disk::{Blob, Error, IoBuf, IoBufs, MemBlob, ReadOptions};
use page::Sum;
use paged::{Writer, recover};
use std::alloc::Global;
use std::num::NonZeroUsize;

/// Recovers a blob. The writer has the cache's next id, and its content is the blob's text, which is
/// what a recovery keeps. Whatever could be read of other blobs with the cache still can be.
fn recovered_beside<H: Sum>(
    alloc: Global,
    blob: &mut MemBlob,
    cache: &mut CacheRef,
) -> Result<Writer<MemBlob, H>, Error>
    requires fresh { IsFresh cache.old }
    ensures ready { IfOk result (λ w. IsReady H.sum_of w cache.new (life_of blob.new)) }
    ensures id { IfOk result (λ w. w.id ≡ cache.old.ids_given) }
    ensures others { LeavesReads cache.old cache.new }
    ensures page_size { IfOk result (λ w. w.page_size ≡ cache.old.page_size) }
    ensures content { let old = life_of blob.old in let new = life_of blob.new in
        let held = text H.sum_of cache.old.page_size old.present.readable in
        IfOk result (λ w. content w new.present.readable ≡ held) }
{
    let size = blob.len();
    let buffer_size = NonZeroUsize::MIN;
    let recovery = recover::<MemBlob, H>(alloc, blob, size, CAPACITY, cache, buffer_size)?;
    Ok(Writer::from(recovery))
}

/// What an append answered after a snapshot was made, the snapshot's size, and what it then read.
#[derive(Drop)]
pub struct After {
    pub answer: Result<u64, Error>,
    pub size: u64,
    pub read: IoBufs,
}

/// Makes a snapshot, appends, and reads the snapshot, whatever the append answered. The read gives
/// the content from before the append.
fn read_after_an_append<B: Blob, H: Sum>(
    writer: Writer<B, H>,
    blob: &mut B,
    cache: &mut CacheRef,
    bytes: &[u8],
    range: (u64, usize),
) -> Result<After, Error>
    requires ready { IsReady H.sum_of writer cache.old (B.life blob.old) }
    ensures reads { let held = content writer (B.life blob.old).present.readable in
        IfOk result (λ b. concat b.read ≡ take range.1 (drop range.0 held)) }
{
    let (writer, sealed) = writer.snapshot(blob, cache)?;
    let answer = match writer.append(blob, cache, bytes) {
        Ok((writer, _)) => Ok(writer.size()),
        Err(error) => Err(error),
    };
    let read = sealed.read_at(blob, cache, range.0, range.1)?;
    Ok(After {
        answer,
        size: sealed.size(),
        read,
    })
}

/// Replays a snapshot: its first `count` bytes, or `None` if it has fewer.
fn replayed_of_a_snapshot<B: Blob, H: Sum>(
    writer: Writer<B, H>,
    blob: &mut B,
    cache: &mut CacheRef,
    count: usize,
) -> Result<Option<IoBuf>, Error>
    requires ready { IsReady H.sum_of writer cache.old (B.life blob.old) }
    ensures gives { let held = content writer (B.life blob.old).present.readable in
        IfOk result (λ given. IfSome given (λ bytes. bytes ≡ take count held)) }
{
    let (_, sealed) = writer.snapshot(blob, cache)?;
    let mut replay = sealed.replay(NonZeroUsize::MIN, ReadOptions::default())?;
    if !replay.ensure(blob, count)? {
        return Ok(None);
    }
    Ok(Some(replay.copy_to_bytes(count)?))
}

/// Reads a copy of a snapshot for which nothing has to be written; `BlobInsufficientLength` if a
/// full page is buffered.
fn read_a_copy<B: Blob, H: Sum>(
    writer: Writer<B, H>,
    blob: &mut B,
    cache: &mut CacheRef,
) -> Result<IoBuf, Error>
    requires ready { IsReady H.sum_of writer cache.old (B.life blob.old) }
{
    let sealed = writer.try_snapshot()?.ok_or(Error::BlobInsufficientLength)?;
    let copy = sealed.try_clone()?;
    let size = copy.size() as usize;
    copy.read_at(blob, cache, 0, size)?.coalesce()
}

/// What two blobs read from their beginning.
#[derive(Drop)]
struct Both {
    first: IoBufs,
    second: IoBufs,
}

/// Recovers two blobs on one cache, appends to each, and reads each. Both give their own bytes.
fn read_both<H: Sum>(
    alloc: Global,
    first_blob: &mut MemBlob,
    second_blob: &mut MemBlob,
    cache: &mut CacheRef,
    first_bytes: &[u8],
    second_bytes: &[u8],
    len: usize,
) -> Result<Both, Error>
    requires fresh { IsFresh cache.old }
    ensures first { let was = (life_of first_blob.old).present.readable in
        let held = text H.sum_of cache.old.page_size was in
        IfOk result (λ b. concat b.first ≡ take len (held ++ first_bytes.now)) }
    ensures second { let was = (life_of second_blob.old).present.readable in
        let held = text H.sum_of cache.old.page_size was in
        IfOk result (λ b. concat b.second ≡ take len (held ++ second_bytes.now)) }
{
    let first = recovered_beside::<H>(alloc, first_blob, cache)?;
    let second = recovered_beside::<H>(alloc, second_blob, cache)?;
    let (first, _) = first.append(first_blob, cache, first_bytes)?;
    let (second, _) = second.append(second_blob, cache, second_bytes)?;
    let first_read = first.read_at(first_blob, cache, 0, len)?;
    let second_read = second.read_at(second_blob, cache, 0, len)?;
    Ok(Both {
        first: first_read,
        second: second_read,
    })
}

// A new blob with these bytes, its cache and its writer.
fn begun<H: Sum>(
    alloc: Global,
    blob: &mut MemBlob,
    cache: &mut CacheRef,
    bytes: &[u8],
) -> Result<Writer<MemBlob, H>, Error>
    requires fresh { IsFresh cache.old }
    ensures ready { IfOk result (λ w. IsReady H.sum_of w cache.new (life_of blob.new)) }
{
    let writer = recovered_beside::<H>(alloc, blob, cache)?;
    let (writer, _) = writer.append(blob, cache, bytes)?;
    Ok(writer)
}

/// Opens a new blob, appends, makes a snapshot, appends more, and reads the snapshot.
pub fn keep_and_look_back(alloc: Global) -> Result<After, Error> {
    let mut blob = MemBlob::new(alloc);
    let mut cache = new_cache(alloc)?;
    let writer = begun::<Crc32c>(alloc, &mut blob, &mut cache, b"hello")?;
    read_after_an_append(writer, &mut blob, &mut cache, b" and goodbye", (1, 4))
}

/// Opens a new blob, appends, and replays a snapshot of it.
pub fn keep_and_replay_a_snapshot(alloc: Global) -> Result<Option<IoBuf>, Error> {
    let mut blob = MemBlob::new(alloc);
    let mut cache = new_cache(alloc)?;
    let writer = begun::<Crc32c>(alloc, &mut blob, &mut cache, b"hello and goodbye")?;
    replayed_of_a_snapshot(writer, &mut blob, &mut cache, 5)
}

/// Opens a new blob, appends more than a page, syncs, and reads a copy of a snapshot.
pub fn keep_and_copy(alloc: Global) -> Result<IoBuf, Error> {
    let mut blob = MemBlob::new(alloc);
    let mut cache = new_cache(alloc)?;
    let writer = begun::<Crc32c>(alloc, &mut blob, &mut cache, b"hello and goodbye")?;
    let writer = writer.sync(&mut blob, &mut cache)?;
    read_a_copy(writer, &mut blob, &mut cache)
}

/// Opens two new blobs on one cache, and reads each.
pub fn keep_two(alloc: Global) -> Result<(IoBuf, IoBuf), Error> {
    let mut first = MemBlob::new(alloc);
    let mut second = MemBlob::new(alloc);
    let mut cache = new_cache(alloc)?;
    let both = read_both::<Crc32c>(
        alloc,
        &mut first,
        &mut second,
        &mut cache,
        b"the first of two blobs, in pages of sixteen",
        b"the other of two blobs, in pages of sixteen",
        22,
    )?;
    Ok((both.first.coalesce()?, both.second.coalesce()?))
}
