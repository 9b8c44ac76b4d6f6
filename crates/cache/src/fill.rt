// How a page is put in a slot.
ghost use Rattle.std.specs.Prelude.{◌≡◌, ◌≢◌, ◌+◌, ◌*◌, ◌<◌, ◌≤◌, ℕ, List, [], length, IfOk, IsOkUnless};
ghost use Rattle.std.specs.Int.NonZero.{non_zero_u16_get, non_zero_usize_get};
ghost use Rattle.cache.specs.CacheState.{Puts, empty_cache, put_at};
ghost use Rattle.cache.specs.Slots.{AreSlots, AreSlotsBut, IsAbsent, Linked, Overwritten, Taken};
ghost use Rattle.cache.specs.Slots.{Unlinked, cache_of};

use crate::slots::{Key, NONE, Slots};
use crate::walk::place;
use disk::Error;
use std::alloc::Global;
use std::num::{NonZeroU16, NonZeroUsize};

/// Copies some bytes to an offset of a buffer.
pub(crate) fn copy_at(buf: &mut [u8], buf_offset: usize, bytes: &[u8])
    requires { buf_offset + length bytes.now ≤ length buf.old }
    ensures put { buf.new ≡ put_at buf_offset bytes.now buf.old }
    ensures size { length buf.new ≡ length buf.old }
{
    buf[buf_offset..buf_offset + bytes.len()].copy_from_slice(bytes);
}

impl Slots {
    /// A table with no page, and with all the memory that it will ever need. The only error is
    /// `OutOfMemory`. The memory of a page is touched only once the page is put.
    pub(crate) fn new(
        alloc: Global,
        page_size: NonZeroU16,
        capacity: NonZeroUsize,
    ) -> Result<Self, Error>
        ensures are { IfOk result (λ slots. AreSlots slots) }
        ensures made { IfOk result (λ slots. cache_of 0 slots
            ≡ empty_cache (non_zero_u16_get page_size) (non_zero_usize_get capacity)) }
        ensures err { IsOkUnless result Error.OutOfMemory }
    {
        let capacity = capacity.get();
        let room = capacity.saturating_mul(usize::from(page_size.get()));
        let bytes = Vec::with_capacity(alloc, room)?;
        let keys = vec![in alloc; (0, 0); capacity]?;
        let nexts = vec![in alloc; NONE; capacity]?;
        // The least power of two that is at least twice the capacity, and at most 2^62.
        let places = 2 * capacity.min(1 << 61).next_power_of_two();
        let hints = vec![in alloc; NONE; places]?;
        let firsts = vec![in alloc; NONE; places]?;
        Ok(Slots {
            page_size,
            bytes,
            keys,
            hints,
            firsts,
            nexts,
            used: 0,
            hand: 0,
        })
    }

    /// Writes these bytes, a page, over the page of a slot.
    fn overwrite(&mut self, slot: usize, bytes: &[u8])
        requires slot { slot < self.old.used }
        requires size { length bytes.now ≡ non_zero_u16_get self.old.page_size }
        requires bytes { length self.old.bytes.items
            ≡ self.old.used * non_zero_u16_get self.old.page_size }
        ensures { Overwritten slot bytes.now self.old self.new }
    {
        let size = usize::from(self.page_size.get());
        copy_at(&mut self.bytes, slot * size, bytes);
    }

    /// Takes the next free slot for a page.
    fn take_free(&mut self, bytes: &[u8]) -> usize
        requires are { AreSlots self.old }
        requires room { self.old.used < length self.old.keys.items }
        requires size { length bytes.now ≡ non_zero_u16_get self.old.page_size }
        ensures slot { result ≡ self.old.used }
        ensures used { self.new.used ≡ self.old.used + 1 }
        ensures taken { Taken result bytes.now self.old self.new }
    {
        let slot = self.used;
        // There has been room for the page since the table was made, so this can't fail.
        if self.bytes.extend_from_slice(bytes).is_ok() {
            self.used = slot + 1;
        }
        slot
    }

    /// Takes the slot under the hand out of its key's chain, puts a page's bytes into the slot, and
    /// moves the hand on.
    fn take_used(&mut self, bytes: &[u8]) -> usize
        requires are { AreSlots self.old }
        requires full { self.old.used ≡ length self.old.keys.items }
        requires size { length bytes.now ≡ non_zero_u16_get self.old.page_size }
        ensures slot { result < self.old.used }
        ensures used { self.new.used ≡ self.old.used }
        ensures taken { Taken result bytes.now self.old self.new }
    {
        let slot = self.hand;
        self.unlink(slot);
        self.hand = if slot + 1 < self.keys.len() {
            slot + 1
        } else {
            0
        };
        self.overwrite(slot, bytes);
        slot
    }

    /// Takes a slot out of the chain of its key.
    fn unlink(&mut self, slot: usize)
        requires are { AreSlots self.old }
        requires slot { slot < self.old.used }
        ensures are { AreSlotsBut slot self.new }
        ensures same { Unlinked self.old self.new }
    {
        let key = self.keys[slot];
        let place = place(key, self.firsts.len());
        let next = self.nexts[slot];
        if let Some(link) = self.link_at(place, key) {
            match link.before {
                Some(before) => self.nexts[before] = next,
                None => self.firsts[place] = next,
            }
        }
    }

    /// Gives a slot to a key, in front of the key's chain.
    fn link(&mut self, slot: usize, key: Key)
        requires are { AreSlotsBut slot self.old }
        requires slot { slot < self.old.used }
        requires absent { IsAbsent slot key self.old }
        ensures are { AreSlots self.new }
        ensures linked { Linked slot key self.old self.new }
    {
        let place = place(key, self.firsts.len());
        self.keys[slot] = key;
        self.nexts[slot] = self.firsts[place];
        self.firsts[place] = slot;
        self.hints[place] = slot;
    }

    /// Puts a page of exactly the page size: over the one that is held under the key; or else in a
    /// free slot; or else in the slot under the hand, whose page goes.
    pub(crate) fn put(&mut self, key: Key, bytes: &[u8])
        requires are { AreSlots self.old }
        requires size { length bytes.now ≡ non_zero_u16_get self.old.page_size }
        ensures are { AreSlots self.new }
        ensures puts { (ids : ℕ)
            → Puts key bytes.now (cache_of ids self.old) (cache_of ids self.new) }
    {
        if let Some(slot) = self.find(key) {
            self.overwrite(slot, bytes);
            let place = place(key, self.firsts.len());
            self.hints[place] = slot;
            return;
        }
        let slot = if self.used < self.keys.len() {
            self.take_free(bytes)
        } else {
            self.take_used(bytes)
        };
        self.link(slot, key);
    }
}
