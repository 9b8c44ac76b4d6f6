// What a device was asked for, as ghost data: nothing of it is left at run time.
ghost use Rattle.std.specs.Prelude.{◌≡◌};
ghost use Rattle.std.specs.List.{concat};
ghost use Rattle.disk.specs.declared.action.Action.TheVariants as actions;
ghost use Rattle.disk.specs.Past.{begun_history, history_with};

use crate::IoBufs;
use crate::ranges::Listed;
use std::marker::Model;
use std::snapshot::Snapshot;

/// The bytes that a device began with, what it was asked for since, and which calls failed. It is
/// for whoever writes a [`crate::Blob`] that keeps no history at run time: hold a past as a
/// `Snapshot`, which takes no memory, and let each call add one event to it.
#[cycle(past)]
#[derive(Drop)]
pub struct Past {
    last: Asked,
}

// The last thing that the device was asked for, whether that failed, and the past before it.
#[cycle(past)]
#[derive(Drop)]
enum Asked {
    Nothing(Snapshot<Vec<u8>>),
    Read(Snapshot<Snapshot<Past>>, u64, usize, bool),
    ReadMany(Snapshot<Snapshot<Past>>, Snapshot<Listed>, bool),
    StartReadMany(Snapshot<Snapshot<Past>>, Snapshot<Listed>, bool),
    Write(Snapshot<Snapshot<Past>>, u64, Snapshot<IoBufs>, bool, bool),
    Resize(Snapshot<Snapshot<Past>>, u64, bool),
    Sync(Snapshot<Snapshot<Past>>, bool),
    StartSync(Snapshot<Snapshot<Past>>, bool),
    WaitSync(Snapshot<Snapshot<Past>>, u64, bool),
}

impl Model for Past {
    ghost use Rattle.std.specs.Prelude.{length};
    ghost use Rattle.disk.specs.History.{History};

    ghost Value = { History };

    ghost use Rattle.disk.specs.Past.{past_of};

    ghost view = { λ p. past_of p.last };

    ghost size = { λ h. length h.events };

    ghost use Rattle.std.proofs.Common.{arith, length-append};

    ghost size_decreases = { λ a h. Prim.grind (arith, length-append) };
}

impl Past {
    /// The past of a device that begins with these bytes, and was asked for nothing yet.
    pub fn begun(bytes: &Vec<u8>) -> Snapshot<Self>
        ensures { result.value ≡ begun_history bytes.now.items }
    {
        let past = Past {
            last: Asked::Nothing(Snapshot::of(bytes)),
        };
        Snapshot::of(&past)
    }

    /// The past with one read more.
    pub fn read(before: &Snapshot<Self>, offset: u64, len: usize, failed: bool) -> Snapshot<Self>
        ensures { result.value ≡ history_with (actions.Read offset len) failed before.now.value }
    {
        let past = Past {
            last: Asked::Read(Snapshot::of(before), offset, len, failed),
        };
        Snapshot::of(&past)
    }

    /// The past with one more read of several ranges.
    pub fn read_many(
        before: &Snapshot<Self>,
        ranges: &[(u64, usize)],
        failed: bool,
    ) -> Snapshot<Self>
        ensures { result.value
            ≡ history_with (actions.ReadMany ranges.now) failed before.now.value }
    {
        let past = Past {
            last: Asked::ReadMany(Snapshot::of(before), Listed::of(ranges), failed),
        };
        Snapshot::of(&past)
    }

    /// The past with one more start of a read of several ranges.
    pub fn start_read_many(
        before: &Snapshot<Self>,
        ranges: &[(u64, usize)],
        failed: bool,
    ) -> Snapshot<Self>
        ensures { result.value
            ≡ history_with (actions.StartReadMany ranges.now) failed before.now.value }
    {
        let past = Past {
            last: Asked::StartReadMany(Snapshot::of(before), Listed::of(ranges), failed),
        };
        Snapshot::of(&past)
    }

    /// The past with one write more; `sync` says whether it was to be durable.
    pub fn write(
        before: &Snapshot<Self>,
        offset: u64,
        bufs: &IoBufs,
        sync: bool,
        failed: bool,
    ) -> Snapshot<Self>
        ensures { let bytes = concat bufs.now in
            result.value ≡ history_with (actions.Write offset bytes sync) failed before.now.value }
    {
        let past = Past {
            last: Asked::Write(
                Snapshot::of(before),
                offset,
                Snapshot::of(bufs),
                sync,
                failed,
            ),
        };
        Snapshot::of(&past)
    }

    /// The past with one more resize, to `len` bytes.
    pub fn resize(before: &Snapshot<Self>, len: u64, failed: bool) -> Snapshot<Self>
        ensures { result.value ≡ history_with (actions.Resize len) failed before.now.value }
    {
        let past = Past {
            last: Asked::Resize(Snapshot::of(before), len, failed),
        };
        Snapshot::of(&past)
    }

    /// The past with one more start of a sync.
    pub fn start_sync(before: &Snapshot<Self>, failed: bool) -> Snapshot<Self>
        ensures { result.value ≡ history_with actions.StartSync failed before.now.value }
    {
        let past = Past {
            last: Asked::StartSync(Snapshot::of(before), failed),
        };
        Snapshot::of(&past)
    }

    /// The past with one more wait for the started sync of this name.
    pub fn wait_sync(before: &Snapshot<Self>, name: u64, failed: bool) -> Snapshot<Self>
        ensures { result.value ≡ history_with (actions.WaitSync name) failed before.now.value }
    {
        let past = Past {
            last: Asked::WaitSync(Snapshot::of(before), name, failed),
        };
        Snapshot::of(&past)
    }

    /// The past with one sync more.
    pub fn sync(before: &Snapshot<Self>, failed: bool) -> Snapshot<Self>
        ensures { result.value ≡ history_with actions.Sync failed before.now.value }
    {
        let past = Past {
            last: Asked::Sync(Snapshot::of(before), failed),
        };
        Snapshot::of(&past)
    }
}
