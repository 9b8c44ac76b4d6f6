// The cache.
ghost use Rattle.std.specs.Prelude.{◌≡◌, ◌<◌, ◌≤◌, ◌^◌, ◌/◌, ◌%◌, IfOk, IsOkUnless};
ghost use Rattle.std.specs.Prelude.{length, is_some};
ghost use Rattle.std.specs.Result.{OkIff};
ghost use Rattle.std.specs.Int.NonZero.{non_zero_u16_get, non_zero_usize_get};
ghost use Rattle.cache.specs.CacheState.{after_next_id, cached_page, empty_cache};

use crate::slots::Slots;
use disk::Error;
use std::alloc::Global;
use std::marker::Model;
use std::num::{NonZeroU16, NonZeroUsize};

/// The pages of many blobs, by blob id and page number, and the ids of the blobs. It holds whole
/// logical pages, without their footers, and at most as many as its capacity: a page goes only
/// where a new one meets a full cache.
///
/// What is put under a blob's id must be that blob's own pages, so that its readers read what the
/// blob holds: the blob's writer and its readers see to that. A cache doesn't check what it is
/// given.
pub struct CacheRef {
    pub(crate) alloc: Global,
    pub(crate) slots: Slots,
    /// The next id; `None` once the greatest `u64` was given.
    pub(crate) next: Option<u64>,
}

// By hand, so that an owner lets one go by one call: of a derived drop, a proof follows each field
// at each exit.
impl Drop for CacheRef {
    fn drop(self) {
        let CacheRef {
            alloc: _,
            slots: _,
            next: _,
        } = self;
    }
}

impl Model for CacheRef {
    ghost use Rattle.cache.specs.CacheState.{CacheState, ids_given};
    ghost use Rattle.cache.specs.Slots.{AreSlots, cache_of};

    ghost Value = { CacheState };

    ghost view = { λ c. cache_of (ids_given c.next) c.slots };

    ghost invariant = { λ c. AreSlots c.slots };
}

impl CacheRef {
    /// A cache of at most `capacity` pages of `page_size` logical bytes, which holds none and has
    /// given no id. It takes the memory for that many pages and never more. The only error is
    /// `OutOfMemory`.
    pub fn new(alloc: Global, page_size: NonZeroU16, capacity: NonZeroUsize) -> Result<Self, Error>
        ensures made { let most = non_zero_usize_get capacity in
            IfOk result (λ c. c ≡ empty_cache (non_zero_u16_get page_size) most) }
        ensures err { IsOkUnless result Error.OutOfMemory }
    {
        let slots = Slots::new(alloc, page_size, capacity)?;
        Ok(CacheRef {
            alloc,
            slots,
            next: Some(0),
        })
    }

    /// How many pages the cache holds, of all blobs.
    pub fn len(&self) -> usize
        ensures len { result ≡ length self.now.pages }
        ensures within { result ≤ self.now.capacity }
    {
        self.slots.used
    }

    /// Whether the cache holds the page of this number of the blob with this id.
    pub fn holds(&self, id: u64, page: u64) -> bool
        ensures { result ≡ is_some (cached_page self.now (id, page)) }
    {
        self.slots.get((id, page)).is_some()
    }

    /// How many pages the cache left out for want of memory: always 0, since a put takes none.
    pub fn skipped(&self) -> u64
        ensures { result ≡ 0 }
    {
        0
    }

    /// The logical size of a page, in bytes.
    pub fn page_size(&self) -> NonZeroU16
        ensures { non_zero_u16_get result ≡ self.now.page_size }
    {
        self.slots.page_size
    }

    /// The number of the page of a logical offset, and how many bytes of that page stand before the
    /// offset.
    pub fn offset_to_page(&self, offset: u64) -> (u64, u64)
        ensures page { result.0 ≡ offset / self.now.page_size }
        ensures skip { result.1 ≡ offset % self.now.page_size }
        ensures within { result.1 < self.now.page_size }
    {
        let size = u64::from(self.slots.page_size.get());
        (offset / size, offset % size)
    }

    /// An id that this cache has not given before: 0, 1, 2 and so on. `IdsExhausted` once the
    /// greatest `u64` was given, and then the cache is as it was.
    pub fn next_id(&mut self) -> Result<u64, Error>
        ensures id { OkIff result (self.old.ids_given < 2 ^ 64) self.old.ids_given }
        ensures err { IsOkUnless result Error.IdsExhausted }
        ensures given { self.new ≡ after_next_id result self.old }
    {
        let id = self.next.ok_or(Error::IdsExhausted)?;
        self.next = id.checked_add(1);
        Ok(id)
    }
}
