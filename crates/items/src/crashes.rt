// Items whose blob crashed.
ghost use Rattle.std.specs.Prelude.{◌≡◌, IfOk};
ghost use Rattle.std.specs.Int.NonZero.{non_zero_usize_get};
ghost use Rattle.disk.specs.History.{life_of};
ghost use Rattle.cache.specs.Pages.{IsFresh};
ghost use Rattle.items.specs.Standing.{AreReady, ItemsCrashLeaves};
ghost use Rattle.items.specs.Calls.{ItemsCrashGoes};

use crate::items::Items;
use cache::CacheRef;
use disk::{Blob, Error, MemBlob};
use page::Sum;
use std::alloc::Global;
use std::num::NonZeroUsize;

/// Crashes a blob, which keeps what the true flags name, and recovers its items. They begin with
/// all items that were durable as the crash came, whatever the checksum function. Where no checksum
/// collides in what the crash left, they are the first of the items that were pushed.
///
/// The errors are those of [`Items::recover`]. Where memory for the crash is refused, the error is
/// `OutOfMemory` and nothing changed. What was durable still is, whatever the call answers, so the
/// caller may call it again, however often it was refused. The cache must have pages of the size
/// that the items had.
pub fn crash_and_recover<H: Sum>(
    alloc: Global,
    blob: &mut MemBlob,
    keep: &[bool],
    capacity: usize,
    cache: &mut CacheRef,
    buffer_size: NonZeroUsize,
    size: NonZeroUsize,
) -> Result<Items<MemBlob, H>, Error>
    requires fresh { IsFresh cache.old }
    ensures goes { let s = non_zero_usize_get size in
        ItemsCrashGoes H.sum_of s cache.old cache.new capacity keep.now (life_of blob.old)
        (life_of blob.new) result }
    ensures ready { let s = non_zero_usize_get size in IfOk result (λ r.
        AreReady H.sum_of r cache.new (life_of blob.new) × (r.size ≡ s)) }
    ensures leaves { let was = (life_of blob.old).present in let is = (life_of blob.new).present in
        ItemsCrashLeaves H.sum_of (non_zero_usize_get size) cache.old cache.new was is }
{
    blob.crash(keep)?;
    let blob_size = blob.len();
    Items::recover(alloc, blob, blob_size, capacity, cache, buffer_size, size)
}
