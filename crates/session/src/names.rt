// The names of the syncs that a session started.
ghost use Rattle.std.specs.Prelude.{◌≡◌, ◌<◌, [], vec_len, vec_capacity, is_ok, IfErr, OnOk};
ghost use Rattle.session.specs.Calls.{IsPlaceOf, is_given, with_name};

use std::alloc::{AllocError, Global};
use std::marker::Model;

/// The names of the syncs that a session started, in order, each once. A device names a sync by
/// the number of syncs that it started before, so a new name goes to the end.
#[derive(Drop)]
pub(crate) struct Names {
    given: Vec<u64>,
}

impl Model for Names {
    ghost use Rattle.std.specs.Prelude.{Vec, ℕ};
    ghost use Rattle.std.specs.List.Sorted.{IsStrictlyIncreasing};
    ghost use Rattle.std.specs.declared.alloc.Global.{Global};

    ghost Value = { Vec ℕ Global };

    ghost view = { λ names. names.given };

    ghost invariant = { λ names. IsStrictlyIncreasing names.given.items };
}

impl Names {
    pub(crate) fn new(alloc: Global) -> Self
        ensures { result.items ≡ [] }
    {
        Names {
            given: Vec::new(alloc),
        }
    }

    /// Makes room for one more name.
    pub(crate) fn make_room(&mut self) -> Result<(), AllocError>
        ensures same { self.new.items ≡ self.old.items }
        ensures room { OnOk result (vec_len self.new < vec_capacity self.new) }
    {
        self.given.try_reserve(1)
    }

    /// Adds a name, unless it is there: a start that finds nothing new to sync answers the name of
    /// the sync before it.
    pub(crate) fn add(&mut self, name: u64)
        requires { vec_len self.old < vec_capacity self.old }
        ensures { self.new.items ≡ with_name name self.old.items }
    {
        if let Err(place) = self.place(name) {
            self.given.insert(place, name).unwrap();
        }
    }

    /// Whether the name is one of these.
    pub(crate) fn has(&self, name: u64) -> bool
        ensures { result ≡ is_given self.now.items name }
    {
        self.place(name).is_ok()
    }

    // `Ok` with the place of the name, or `Err` with the place where it goes. Each look halves what
    // is left.
    fn place(&self, name: u64) -> Result<usize, usize>
        ensures given { is_ok result ≡ is_given self.now.items name }
        ensures there { OnOk result (with_name name self.now.items ≡ self.now.items) }
        ensures goes { IfErr result (IsPlaceOf self.now.items name) }
    {
        self.given.binary_search(&name)
    }
}
