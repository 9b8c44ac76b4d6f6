// A key-value store: a map in memory, and a journal of all its changes.
ghost use Rattle.std.specs.Prelude.{◌≡◌, ◌≤◌, ◌+◌, length};
ghost use Rattle.std.specs.Prelude.{IfOk, IsOkUnless, option_map};
ghost use Rattle.std.specs.FinMap.{get, insert, remove};
ghost use Rattle.cache.specs.Pages.{IsFresh};
ghost use Rattle.disk.specs.History.{life_of};
ghost use Rattle.journal.specs.Calls.{JournalRecoveryLeaves};
ghost use Rattle.paged_read.specs.Searches.{ReadsWithin, scan_bytes};
ghost use Rattle.store.specs.Changes.{delete_record, put_record};
ghost use Rattle.store.specs.Store.{ChangeCosts, ChangeGoes, ChangeLeaves, CommitCosts};
ghost use Rattle.store.specs.Store.{CommitLeaves, CommitStoreGoes, CrashAndOpenGoes};
ghost use Rattle.store.specs.Store.{CrashAndOpenLeaves, IsStore, KeepsChanges, MapGoes};
ghost use Rattle.store.specs.Store.{OpenStoreGoes, ReadsChange};

use crate::map::Map;
use cache::CacheRef;
use disk::{Blob, Error, IoBuf, MemBlob};
use journal::{Journal, crash_and_recover};
use page::Sum;
use paged::{RECOMMENDED_CAPACITY, recommended_buffer_size};
use std::alloc::Global;
use std::marker::Model;

// What the record of a delete has in its first two bytes, where a put has the length of its key.
const DELETE: u16 = 65535;

/// Why a store wasn't opened.
#[derive(Clone, Copy, Debug, PartialEq, Eq, thiserror::Error)]
pub enum OpenError {
    /// A record of the journal is neither a put nor a delete: the journal is of another program.
    #[error("a record of the journal is neither a put nor a delete")]
    ForeignRecord,
    /// The layer below refused the recovery, or memory for the map.
    #[error("{0}")]
    Refused(Error),
}

impl From<Error> for OpenError {
    ghost use Rattle.std.specs.Prelude.{◌≡◌};
    ghost use Rattle.store.specs.declared.store.OpenError.TheVariants.{Refused};

    ghost from_gives = { λ error e. e ≡ Refused error };

    fn from(error: Error) -> Self {
        OpenError::Refused(error)
    }
}

/// A map from keys to values, and the journal that keeps it. The blob and the cache are lent to
/// each call. A call that takes the store gives it back only at `Ok`. After an error the store is
/// to be opened again.
#[derive(Drop)]
pub struct Store<B, H, R> {
    alloc: Global,
    journal: Journal<B, H, R>,
    map: Map,
}

impl<B, H, R> Model for Store<B, H, R> {
    ghost use Rattle.std.specs.Coded.{codes};
    ghost use Rattle.store.specs.Changes.{map_code};
    ghost use Rattle.store.specs.Store.{StoreState};

    ghost Value = { StoreState };

    ghost coded = { Prim.hlevel (codes, map_code) };

    ghost view = { λ s. record { map = s.map; journal = s.journal } };
}

// The record of a put. It answers `OutOfMemory` alone.
fn record_of_put(alloc: Global, key: &[u8], value: &[u8]) -> Result<Vec<u8>, Error>
    requires short { 2 + length key.now + length value.now ≤ 65535 }
    ensures made { IfOk result (λ made. made.items ≡ put_record key.now value.now) }
    ensures err { IsOkUnless result Error.OutOfMemory }
{
    let mut record = Vec::with_capacity(alloc, 2 + key.len() + value.len())?;
    record.extend_from_slice(&(key.len() as u16).to_be_bytes())?;
    record.extend_from_slice(key)?;
    record.extend_from_slice(value)?;
    Ok(record)
}

// The record of a delete. It answers `OutOfMemory` alone.
fn record_of_delete(alloc: Global, key: &[u8]) -> Result<Vec<u8>, Error>
    requires short { 2 + length key.now ≤ 65535 }
    ensures made { IfOk result (λ made. made.items ≡ delete_record key.now) }
    ensures err { IsOkUnless result Error.OutOfMemory }
{
    let mut record = Vec::with_capacity(alloc, 2 + key.len())?;
    record.extend_from_slice(&DELETE.to_be_bytes())?;
    record.extend_from_slice(key)?;
    Ok(record)
}

// The key of a change, and the value of a put; none where these bytes are no change.
fn change_of(bytes: &[u8]) -> Option<(&[u8], Option<&[u8]>)>
    ensures { ReadsChange bytes.now
        (option_map (λ r. (r.0.now, option_map (λ v. v.now) r.1)) result) }
{
    let (mark, rest) = bytes.split_first_chunk::<2>()?;
    let mark = u16::from_be_bytes(*mark);
    if mark == DELETE {
        return Some((rest, None));
    }
    let (key, value) = rest.split_at_checked(usize::from(mark))?;
    Some((key, Some(value)))
}

// The map that these changes make.
fn map_of(alloc: Global, records: &[IoBuf]) -> Result<Map, OpenError>
    ensures { MapGoes records.now result }
{
    let mut map = Map::new(alloc);
    for change in records {
        let Some((key, value)) = change_of(change.as_ref()) else {
            return Err(OpenError::ForeignRecord);
        };
        map.set(alloc, key, value)?;
    }
    Ok(map)
}

impl<B, H, R> Store<B, H, R> {
    /// The value at a key, if there is one.
    pub fn get(&self, key: &[u8]) -> Option<&[u8]>
        ensures { option_map (λ v. v.now) result ≡ get self.now.map key.now }
    {
        self.map.get(key)
    }
}

impl<B: Blob, H: Sum, R: Sum> Store<B, H, R> {
    /// Opens the store of a blob of `size` physical bytes, whatever they are. The journal is
    /// recovered, and its records, which begin with all changes that were committed, make the map.
    /// The cache is a new one, or one that other blobs have.
    ///
    /// `ForeignRecord` where a record is neither a put nor a delete: the recovery is done then, and
    /// has cut what it cuts. `Refused` where the recovery failed ([`Journal::recover`]), or memory
    /// for the map was refused. Changes that were committed still are, whatever it answers.
    pub fn open(
        alloc: Global,
        blob: &mut B,
        size: u64,
        cache: &mut CacheRef,
    ) -> Result<Self, OpenError>
        requires length { size ≡ length (B.life blob.old).present.readable }
        requires fresh { IsFresh cache.old }
        ensures goes { let old = B.life blob.old in let new = B.life blob.new in
            OpenStoreGoes H.sum_of R.sum_of cache.old cache.new 65536 old new result }
        ensures stays { let old = B.life blob.old in let new = B.life blob.new in
            KeepsChanges H.sum_of R.sum_of cache.old.page_size old new }
        ensures leaves { let old = B.life blob.old in let new = B.life blob.new in
            JournalRecoveryLeaves H.sum_of R.sum_of cache.old cache.new old new }
        ensures costs { let most = scan_bytes cache.old.page_size 65536 in
            ReadsWithin most (B.life blob.old) (B.life blob.new) }
    {
        let (capacity, most) = (RECOMMENDED_CAPACITY, recommended_buffer_size());
        let (journal, records) = Journal::recover(alloc, blob, size, capacity, cache, most)?;
        let map = map_of(alloc, &records)?;
        Ok(Store {
            alloc,
            journal,
            map,
        })
    }

    /// Puts a value at a key, of at most 65,533 bytes together. The put is durable once the next
    /// [`Store::commit`] has answered `Ok`. The device is asked for nothing where the record fits
    /// what the journal may hold back; else at most three calls are made.
    ///
    /// The errors are those of [`Journal::append_record`]. The store is gone then, and what was
    /// committed still is.
    pub fn put(
        self,
        blob: &mut B,
        cache: &mut CacheRef,
        key: &[u8],
        value: &[u8],
    ) -> Result<Self, Error>
        requires store { IsStore H.sum_of R.sum_of self cache.old (B.life blob.old) }
        requires short { 2 + length key.now + length value.now ≤ 65535 }
        ensures goes { let old = B.life blob.old in let new = B.life blob.new in
            let change = put_record key.now value.now in
            let map = insert self.map key.now value.now in
            ChangeGoes H.sum_of R.sum_of self change map cache.old cache.new old new result }
        ensures leaves { let old = B.life blob.old in let new = B.life blob.new in
            let change = put_record key.now value.now in
            ChangeLeaves H.sum_of R.sum_of self change cache.old cache.new old new }
        ensures fresh { IsFresh cache.new }
        ensures costs { let old = B.life blob.old in let new = B.life blob.new in
            ChangeCosts R.sum_of self.journal (put_record key.now value.now) old new }
    {
        let Store {
            alloc,
            journal,
            mut map,
        } = self;
        let record = record_of_put(alloc, key, value)?;
        map.insert(alloc, key, value)?;
        let (journal, _) = journal.append_record(blob, cache, &record)?;
        Ok(Store {
            alloc,
            journal,
            map,
        })
    }

    /// Takes the value at a key away, whether there is one or not. The key has at most 65,533
    /// bytes. The delete is durable once the next [`Store::commit`] has answered `Ok`, and costs
    /// what a put costs.
    ///
    /// The errors are those of [`Journal::append_record`]. The store is gone then, and what was
    /// committed still is.
    pub fn delete(self, blob: &mut B, cache: &mut CacheRef, key: &[u8]) -> Result<Self, Error>
        requires store { IsStore H.sum_of R.sum_of self cache.old (B.life blob.old) }
        requires short { 2 + length key.now ≤ 65535 }
        ensures goes { let old = B.life blob.old in let new = B.life blob.new in
            let change = delete_record key.now in
            let map = remove self.map key.now in
            ChangeGoes H.sum_of R.sum_of self change map cache.old cache.new old new result }
        ensures leaves { let old = B.life blob.old in let new = B.life blob.new in
            let change = delete_record key.now in
            ChangeLeaves H.sum_of R.sum_of self change cache.old cache.new old new }
        ensures fresh { IsFresh cache.new }
        ensures costs { let old = B.life blob.old in let new = B.life blob.new in
            ChangeCosts R.sum_of self.journal (delete_record key.now) old new }
    {
        let Store {
            alloc,
            journal,
            mut map,
        } = self;
        let record = record_of_delete(alloc, key)?;
        map.remove(key);
        let (journal, _) = journal.append_record(blob, cache, &record)?;
        Ok(Store {
            alloc,
            journal,
            map,
        })
    }

    /// Commits all changes: whatever crashes from then on, they come back. It makes at most two
    /// device calls, and none where all is durable.
    ///
    /// The errors are those of [`Journal::commit`]. The store is gone then, and what was committed
    /// before still is.
    pub fn commit(self, blob: &mut B, cache: &mut CacheRef) -> Result<Self, Error>
        requires store { IsStore H.sum_of R.sum_of self cache.old (B.life blob.old) }
        ensures goes { let old = B.life blob.old in let new = B.life blob.new in
            CommitStoreGoes H.sum_of R.sum_of self cache.new old new result }
        ensures leaves { let old = B.life blob.old in let new = B.life blob.new in
            CommitLeaves H.sum_of R.sum_of self cache.old cache.new old new }
        ensures fresh { IsFresh cache.new }
        ensures costs { CommitCosts self.journal (B.life blob.old) (B.life blob.new) }
    {
        let Store {
            alloc,
            journal,
            map,
        } = self;
        let journal = journal.commit(blob, cache)?;
        Ok(Store {
            alloc,
            journal,
            map,
        })
    }
}

/// Crashes a blob in memory, which keeps what these flags say ([`MemBlob::crash`]), and opens its
/// store. The cache is to have pages of the size that the store had.
///
/// The errors are those of [`Store::open`], and `Refused` where memory for the crash was refused,
/// which leaves all as it was. Changes that were committed still are, whatever it answers, so it
/// may be called again.
pub fn crash_and_open<H: Sum, R: Sum>(
    alloc: Global,
    blob: &mut MemBlob,
    keep: &[bool],
    cache: &mut CacheRef,
) -> Result<Store<MemBlob, H, R>, OpenError>
    requires fresh { IsFresh cache.old }
    ensures goes { let old = life_of blob.old in let new = life_of blob.new in
        CrashAndOpenGoes H.sum_of R.sum_of cache.old cache.new 65536 keep.now old new result }
    ensures leaves { let was = (life_of blob.old).present in let is = (life_of blob.new).present in
        CrashAndOpenLeaves H.sum_of R.sum_of cache.old cache.new was is }
    ensures costs { let most = scan_bytes cache.old.page_size 65536 in
        ReadsWithin most (life_of blob.old) (life_of blob.new) }
{
    let (capacity, most) = (RECOMMENDED_CAPACITY, recommended_buffer_size());
    let (journal, changes) = crash_and_recover(alloc, blob, keep, capacity, cache, most)?;
    let map = map_of(alloc, &changes)?;
    Ok(Store {
        alloc,
        journal,
        map,
    })
}
