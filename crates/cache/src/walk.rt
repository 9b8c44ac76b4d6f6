// How a slot is found by its page's key.
ghost use Rattle.std.specs.Prelude.{◌≡◌, ◌<◌, ◌≤◌, ℕ, List, length, option_copied};
ghost use Rattle.std.specs.Prelude.{IfSome, MatchOption, slice_index_or};
ghost use Rattle.std.specs.Int.NonZero.{non_zero_u16_get};
ghost use Rattle.std.specs.Map.{lookup};
ghost use Rattle.cache.specs.CacheState.{same_key};
ghost use Rattle.cache.specs.Chain.{HasChain, IsChain, IsLink, NoneHolds, place_of};
ghost use Rattle.cache.specs.Slots.{AreSlots, cached_pages, HoldsKey, IsNowhere};

use crate::slots::{Key, Link, Slots};

/// Where a key stands among so many places, a power of two.
pub(crate) fn place(key: Key, places: usize) -> usize
    requires { 0 < places }
    ensures is { result ≡ place_of places key }
    ensures below { result < places }
{
    let (id, page) = key;
    let mixed = page.wrapping_add(id.wrapping_mul(0x9E37_79B9_7F4A_7C15));
    (mixed as usize) & (places - 1)
}

/// The slot of the chain from `first` on that holds a key, and the slot before it in the chain.
pub(crate) fn walk(keys: &[Key], nexts: &[usize], first: usize, key: Key) -> Option<Link>
    requires nexts { length nexts.now ≡ length keys.now }
    requires chain { HasChain nexts.now (length keys.now) first }
    ensures { (slots : List ℕ) → IsChain nexts.now (length keys.now) first slots
        → MatchOption result (NoneHolds keys.now key slots)
        (λ link. IsLink keys.now key slots link) }
{
    let mut before = None;
    let mut slot = first;
    for _ in 0..keys.len() {
        if keys.len() <= slot {
            return None;
        }
        if keys[slot] == key {
            return Some(Link { before, slot });
        }
        before = Some(slot);
        slot = nexts[slot];
    }
    None
}

impl Slots {
    /// The slot that holds a key in the chain of the key's place, and the slot before it in the
    /// chain.
    pub(crate) fn link_at(&self, place: usize, key: Key) -> Option<Link>
        requires are { AreSlots self.now }
        requires place { place_of (length self.now.firsts.items) key ≡ place }
        requires below { place < length self.now.firsts.items }
        ensures { (slots : List ℕ) → IsChain self.now.nexts.items (length self.now.keys.items)
            (slice_index_or self.now.firsts.items place 0) slots
            → MatchOption result (NoneHolds self.now.keys.items key slots)
            (λ link. IsLink self.now.keys.items key slots link) }
    {
        walk(&self.keys, &self.nexts, self.firsts[place], key)
    }

    /// The slot that holds a key: the hinted one, if it does, and else the one that the chain has.
    pub(crate) fn find(&self, key: Key) -> Option<usize>
        requires { AreSlots self.now }
        ensures { MatchOption result (IsNowhere self.now key) (λ slot. HoldsKey self.now key slot) }
    {
        let place = place(key, self.firsts.len());
        let hint = self.hints[place];
        if hint < self.used && self.keys[hint] == key {
            return Some(hint);
        }
        match self.link_at(place, key) {
            Some(link) => Some(link.slot),
            None => None,
        }
    }

    /// The page that is held under a key.
    pub(crate) fn get(&self, key: Key) -> Option<&[u8]>
        requires { AreSlots self.now }
        ensures page { option_copied result ≡ lookup (same_key key) (cached_pages self.now) }
        ensures size { IfSome result (λ bytes.
            length bytes.now ≡ non_zero_u16_get self.now.page_size) }
    {
        let size = usize::from(self.page_size.get());
        match self.find(key) {
            Some(slot) => {
                let start = slot * size;
                Some(&self.bytes[start..start + size])
            }
            None => None,
        }
    }
}
