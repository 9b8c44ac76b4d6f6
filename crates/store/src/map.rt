// The map of a store, in memory.
ghost use Rattle.std.specs.Prelude.{◌≡◌, ℕ, List, Option, IsOkUnless, OnOk, option_map};
ghost use Rattle.std.specs.FinMap as map;
ghost use Rattle.store.specs.Changes.{updated};

use disk::Error;
use std::alloc::Global;
use std::collections::BTreeMap;
use std::marker::Model;

/// A map from keys to values, in memory. A contract sees it as a finite map.
#[derive(Drop)]
pub struct Map {
    entries: BTreeMap<Vec<u8>, Vec<u8>>,
}

impl Model for Map {
    ghost use Rattle.std.specs.Prelude.{ℕ, List};
    ghost use Rattle.std.specs.Coded.{coded_list, coded_ℕ};
    ghost use Rattle.std.specs.Cmp.Lexicographic.{slice_cmp};
    ghost use Rattle.std.specs.FinMap.{FinMap, code, from_entries};
    ghost use Rattle.std.specs.Ordering.{nat_cmp};
    ghost use Rattle.store.specs.Pairs.{pairs_of};

    ghost Value = { FinMap (slice_cmp nat_cmp) (List ℕ) };

    ghost coded = { code (coded_list coded_ℕ) (coded_list coded_ℕ) };

    ghost view = { λ m. from_entries (pairs_of m.entries.entries) };
}

impl Map {
    /// A map with nothing in it.
    pub fn new(alloc: Global) -> Self
        ensures { result ≡ map.empty }
    {
        Map {
            entries: BTreeMap::new(alloc),
        }
    }

    /// The value at a key, if there is one.
    pub fn get(&self, key: &[u8]) -> Option<&[u8]>
        ensures { option_map (λ v. v.now) result ≡ map.get self.now key.now }
    {
        match self.entries.get(key) {
            Some(value) => Some(value.as_slice()),
            None => None,
        }
    }

    /// Puts a value at a key. It answers `OutOfMemory` alone.
    pub fn insert(&mut self, alloc: Global, key: &[u8], value: &[u8]) -> Result<(), Error>
        ensures insert { OnOk result (self.new ≡ map.insert self.old key.now value.now) }
        ensures err { IsOkUnless result Error.OutOfMemory }
    {
        let key = Vec::from_slice(alloc, key)?;
        let value = Vec::from_slice(alloc, value)?;
        self.entries.insert(key, value)?;
        Ok(())
    }
    /// Takes the value at a key away, if there is one.
    pub fn remove(&mut self, key: &[u8])
        ensures { self.new ≡ map.remove self.old key.now }
    {
        let _ = self.entries.remove(key);
    }

    /// Puts a value at a key, or takes away what is there. It answers `OutOfMemory` alone.
    pub fn set(&mut self, alloc: Global, key: &[u8], value: Option<&[u8]>) -> Result<(), Error>
        ensures set { let found : Option (List ℕ) = option_map (λ v. v.now) value.entry in
            OnOk result (self.new ≡ updated self.old key.now found) }
        ensures err { IsOkUnless result Error.OutOfMemory }
    {
        match value {
            Some(value) => self.insert(alloc, key, value),
            None => {
                self.remove(key);
                Ok(())
            }
        }
    }
}
