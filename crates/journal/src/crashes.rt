// Journals whose blob crashed.
ghost use Rattle.std.specs.Prelude.{IfOk};
ghost use Rattle.std.specs.Int.NonZero.{non_zero_usize_get};
ghost use Rattle.disk.specs.History.{life_of};
ghost use Rattle.cache.specs.Pages.{IsFresh};
ghost use Rattle.paged_read.specs.Searches.{ReadsWithin, scan_bytes};
ghost use Rattle.journal.specs.Journal.{IsJournal};
ghost use Rattle.journal.specs.Calls.{JournalCrashGoes, JournalCrashLeaves};

use crate::journal::Journal;
use cache::CacheRef;
use disk::{Blob, Error, IoBuf, MemBlob};
use page::Sum;
use std::alloc::Global;
use std::num::NonZeroUsize;

/// Crashes a blob, which keeps what the true flags name, and recovers its journal. The records that
/// come back begin with all that were committed as the crash came, whatever the checksum functions.
/// Where no checksum collides in what the crash left, they are the first of those that were
/// appended.
///
/// The errors are those of [`Journal::recover`]. Where memory for the crash is refused, the error
/// is `OutOfMemory` and nothing changed. What was committed still is, whatever the call answers, so
/// the caller may call it again, however often it was refused. The cache must have pages of the
/// size that the journal had.
pub fn crash_and_recover<H: Sum, R: Sum>(
    alloc: Global,
    blob: &mut MemBlob,
    keep: &[bool],
    capacity: usize,
    cache: &mut CacheRef,
    buffer_size: NonZeroUsize,
) -> Result<(Journal<MemBlob, H, R>, Vec<IoBuf>), Error>
    requires fresh { IsFresh cache.old }
    ensures goes { JournalCrashGoes H.sum_of R.sum_of cache.old cache.new capacity keep.now
        (life_of blob.old) (life_of blob.new) result }
    ensures ready { IfOk result (λ r. IsJournal H.sum_of r.0 cache.new (life_of blob.new)) }
    ensures leaves { let was = (life_of blob.old).present in let is = (life_of blob.new).present in
        JournalCrashLeaves H.sum_of R.sum_of cache.old cache.new was is }
    ensures costs { let most = scan_bytes cache.old.page_size (non_zero_usize_get buffer_size) in
        ReadsWithin most (life_of blob.old) (life_of blob.new) }
{
    blob.crash(keep)?;
    let size = blob.len();
    Journal::recover(alloc, blob, size, capacity, cache, buffer_size)
}
