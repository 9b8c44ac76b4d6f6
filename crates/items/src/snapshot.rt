// Snapshots of items.
ghost use Rattle.std.specs.Prelude.{◌≡◌, ◌*◌, ◌^◌, ◌<◌, ℕ, length};
ghost use Rattle.std.specs.Int.NonZero.{non_zero_usize_get};
ghost use Rattle.paged_read.specs.Ranges.{AsksForMissing, AsksOnce};
ghost use Rattle.items.specs.Calls.{AreRising, GetGoes, GetManyGoes, item_ranges};
ghost use Rattle.items.specs.Standing.{IsItemsSnapshot, SnapshotReadLeaves, bytes_over, count_over};

use crate::locate::{offset_of, offsets_of};
use cache::CacheRef;
use disk::{Blob, Error};
use page::Sum;
use paged::Sealed;
use std::alloc::Global;
use std::marker::Model;
use std::num::NonZeroUsize;

/// The items that there were when the snapshot was made, by
/// [`Items::snapshot`](crate::items::Items::snapshot) or
/// [`Items::try_snapshot`](crate::items::Items::try_snapshot).
///
/// The snapshot gives just those items, whatever is pushed, synced or refused meanwhile, until the
/// blob crashes or is recovered. Reading an item doesn't make it durable. The snapshot borrows
/// nothing and holds no page: the blob and the cache are lent to each call, always those of the
/// items.
#[derive(Drop)]
pub struct ItemsSnapshot<B, H> {
    alloc: Global,
    snapshot: Sealed<B, H>,
    size: NonZeroUsize,
}

impl<B, H> Model for ItemsSnapshot<B, H> {
    ghost use Rattle.std.specs.Int.NonZero.{non_zero_usize_get};
    ghost use Rattle.items.specs.State.{ItemsSnapshotState};

    ghost Value = { ItemsSnapshotState };

    ghost view = { λ r. record { tail = r.snapshot; size = non_zero_usize_get r.size } };
}

impl<B, H> ItemsSnapshot<B, H> {
    pub(crate) fn new(alloc: Global, snapshot: Sealed<B, H>, size: NonZeroUsize) -> Self
        ensures { result ≡ record { tail = snapshot; size = non_zero_usize_get size } }
    {
        ItemsSnapshot {
            alloc,
            snapshot,
            size,
        }
    }

    /// How many items the snapshot has.
    pub fn len(&self) -> u64
        ensures count { result ≡ count_over self.now }
        ensures fits { count_over self.now * self.now.size < 2 ^ 64 }
    {
        self.snapshot.size() / self.size.get() as u64
    }

    /// How many bytes each item has.
    pub fn item_size(&self) -> usize
        ensures { result ≡ self.now.size }
    {
        self.size.get()
    }
}

impl<B: Blob, H: Sum> ItemsSnapshot<B, H> {
    /// Copies the item of this number into `buf`, which has the items' size. Each page of the item
    /// that the cache lacks is read by one device call.
    ///
    /// `OffsetOverflow` where an item of this number would begin or end past the greatest `u64`,
    /// else `BlobInsufficientLength` where the snapshot has no such item: both before the device or
    /// memory is asked. `ReadFailed` where a read of the device failed. `OutOfMemory` where memory
    /// was refused, perhaps after reads of the device, of which none failed. After an error the
    /// bytes of `buf` mean nothing, and the cache may hold more pages; all else is as it was.
    pub fn get(
        &self,
        blob: &mut B,
        cache: &mut CacheRef,
        i: u64,
        buf: &mut [u8],
    ) -> Result<(), Error>
        requires snapshot { IsItemsSnapshot H.sum_of self.now cache.old (B.life blob.old) }
        requires size { length buf.old ≡ self.now.size }
        ensures goes { let old = B.life blob.old in let new = B.life blob.new in
            GetGoes self.now.size (bytes_over self.now old) i buf.new old new result }
        ensures ready { let old = B.life blob.old in let new = B.life blob.new in
            IsItemsSnapshot H.sum_of self.now cache.new new
            × (bytes_over self.now new ≡ bytes_over self.now old)
            × (length buf.new ≡ length buf.old) }
        ensures leaves { let old = B.life blob.old in let new = B.life blob.new in
            SnapshotReadLeaves H.sum_of self.now.tail.id cache.old cache.new old new }
        ensures costs { let old = B.life blob.old in let new = B.life blob.new in
            let range : ℕ × ℕ = (i * self.now.size, self.now.size) in
            AsksForMissing cache.old self.now.tail range old new }
    {
        match offset_of(i, self.len(), self.size) {
            Ok(offset) => self.snapshot.read_into(blob, cache, buf, offset),
            Err(error) => Err(error),
        }
    }

    /// Copies the items of these numbers, which rise, into `buf`, one after another, and answers
    /// how many of them needed no device. The pages that the cache lacks are read by one device
    /// call, each once.
    ///
    /// The first number that is no item's decides, with the error that [`ItemsSnapshot::get`] would
    /// answer, before the device or memory is asked. The other errors are those of
    /// [`ItemsSnapshot::get`].
    pub fn get_many(
        &self,
        blob: &mut B,
        cache: &mut CacheRef,
        buf: &mut [u8],
        indices: &[u64],
    ) -> Result<usize, Error>
        requires snapshot { IsItemsSnapshot H.sum_of self.now cache.old (B.life blob.old) }
        requires asked { AreRising indices.now
            × (length buf.old ≡ length indices.now * self.now.size) }
        ensures goes { let old = B.life blob.old in let new = B.life blob.new in
            let t = self.now.tail in let bytes = bytes_over self.now old in
            GetManyGoes self.now.size t bytes indices.now cache.old buf.new old new result }
        ensures ready { let old = B.life blob.old in let new = B.life blob.new in
            IsItemsSnapshot H.sum_of self.now cache.new new
            × (bytes_over self.now new ≡ bytes_over self.now old)
            × (length buf.new ≡ length buf.old) }
        ensures leaves { let old = B.life blob.old in let new = B.life blob.new in
            SnapshotReadLeaves H.sum_of self.now.tail.id cache.old cache.new old new }
        ensures costs { let ranges = item_ranges self.now.size indices.now in
            AsksOnce cache.old self.now.tail ranges (B.life blob.old) (B.life blob.new) }
    {
        match offsets_of(self.alloc, indices, self.len(), self.size) {
            Ok(offsets) => {
                self.snapshot
                    .read_many_into(blob, cache, buf, &offsets, self.size)
            }
            Err(error) => Err(error),
        }
    }
}
