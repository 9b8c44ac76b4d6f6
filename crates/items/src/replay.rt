// Replays of items.
ghost use Rattle.std.specs.Prelude.{◌≡◌, OnOk};
ghost use Rattle.std.specs.Int.NonZero.{non_zero_usize_get};
ghost use Rattle.paged_read.specs.Replay.{IsHad};
ghost use Rattle.items.specs.Readers.{HoldsAlong, NextItemGoes, SeekItemGoes};
ghost use Rattle.items.specs.Standing.{IsItemsReplay, ReplayReadLeaves, count_along};

use disk::{Blob, Error, IoBuf};
use page::Sum;
use paged::Replay;
use std::marker::Model;
use std::num::NonZeroUsize;

/// The items that there were when the replay began, by
/// [`Items::replay`](crate::items::Items::replay): one by one, in order, by [`ItemsReplay::next`],
/// with pages read ahead of where the replay stands.
///
/// The replay gives just those items, whatever is pushed, synced or refused meanwhile, until the
/// blob crashes or is recovered. Reading an item doesn't make it durable. The blob is lent to each
/// call that may read; no cache is asked.
#[derive(Drop)]
pub struct ItemsReplay<B, H> {
    replay: Replay<B, H>,
    size: NonZeroUsize,
}

impl<B, H> Model for ItemsReplay<B, H> {
    ghost use Rattle.std.specs.Int.NonZero.{non_zero_usize_get};
    ghost use Rattle.items.specs.State.{ItemsReplayState};

    ghost Value = { ItemsReplayState };

    ghost view = { λ r. record { replay = r.replay; size = non_zero_usize_get r.size } };
}

impl<B, H> ItemsReplay<B, H> {
    pub(crate) fn new(replay: Replay<B, H>, size: NonZeroUsize) -> Self
        ensures { result ≡ record { replay = replay; size = non_zero_usize_get size } }
    {
        ItemsReplay { replay, size }
    }

    /// How many items the replay goes over, from the first on.
    pub fn len(&self) -> u64
        ensures { result ≡ count_along self.now }
    {
        self.replay.blob_size() / self.size.get() as u64
    }

    /// How many bytes each item has.
    pub fn item_size(&self) -> usize
        ensures { result ≡ self.now.size }
    {
        self.size.get()
    }
}

impl<B: Blob, H: Sum> ItemsReplay<B, H> {
    /// The next item, or `None` after the last. This isn't `Iterator::next`, since the blob is lent
    /// to each call. The bytes of an item that lies in one page are shared with what was read of
    /// the page; those of another item are copied. Where the item is at hand already the device
    /// isn't asked. After the call no more bytes are at hand than before, or than an item and a
    /// batch of pages.
    ///
    /// `ReadFailed` where a read of the device that was needed failed. `OutOfMemory` where memory
    /// was refused, perhaps after reads of the device. If no more bytes came to hand, none of these
    /// reads failed. If more did, a read ahead may have failed, which is made again once its pages
    /// are needed. An error leaves the replay at the same item, so the call can be made again.
    pub fn next(&mut self, blob: &mut B) -> Result<Option<IoBuf>, Error>
        requires replay { IsItemsReplay H.sum_of self.old (B.life blob.old) }
        ensures goes { let old = B.life blob.old in let new = B.life blob.new in
            NextItemGoes self.old self.new old new result }
        ensures ready { IsItemsReplay H.sum_of self.new (B.life blob.new)
            × (self.new.size ≡ self.old.size)
            × (self.new.replay.tail ≡ self.old.replay.tail) }
        ensures leaves { ReplayReadLeaves H.sum_of (B.life blob.old) (B.life blob.new) }
        ensures costs { IsHad self.old.replay self.old.size
            → B.life blob.new ≡ B.life blob.old }
        ensures held { OnOk result (HoldsAlong self.old self.new) }
    {
        let size = self.size.get();
        if !self.replay.ensure(blob, size)? {
            return Ok(None);
        }
        let item = self.replay.copy_to_bytes(size)?;
        Ok(Some(item))
    }

    /// Goes to the item of this number, which [`ItemsReplay::next`] then gives, or to the end.
    /// Pages that were read ahead stay, for where they are needed.
    ///
    /// `OffsetOverflow` where an item of this number would begin past the greatest `u64`, else
    /// `BlobInsufficientLength` where there are fewer than `i` items. An error changes nothing.
    pub fn seek_to(&mut self, i: u64) -> Result<(), Error>
        ensures goes { SeekItemGoes H.sum_of self.old i self.new result }
        ensures same { (self.new.size ≡ self.old.size)
            × (self.new.replay.tail ≡ self.old.replay.tail) }
    {
        let Some(offset) = i.checked_mul(self.size.get() as u64) else {
            return Err(Error::OffsetOverflow);
        };
        self.replay.seek_to(offset)
    }
}
