// What a source was asked for, as ghost data: nothing of it is left at run time.
ghost use Rattle.std.specs.Prelude.{◌≡◌, [], ◌∷◌, ◌++◌};
ghost use Rattle.page_digests.specs.Past.{read_event};

use std::marker::Model;
use std::snapshot::Snapshot;

/// The reads of a source so far, and what each gave. It is for whoever writes a
/// [`Source`](crate::Source): hold one as a `Snapshot`, which takes no memory, and let each read
/// put one event more after it.
#[cycle(past)]
#[derive(Drop)]
pub struct SourcePast {
    last: LastRead,
}

// The last read, and the past before it.
#[cycle(past)]
#[derive(Drop)]
enum LastRead {
    Nothing,
    After(Snapshot<Snapshot<SourcePast>>, u64, Snapshot<ByteList>, bool),
}

// Some bytes.
#[cycle(listed)]
#[derive(Drop)]
struct ByteList {
    last: Bytes,
}

// The last byte, after a list of the others.
#[cycle(listed)]
#[derive(Drop)]
enum Bytes {
    Nothing,
    After(Snapshot<Snapshot<ByteList>>, u8),
}

impl Model for SourcePast {
    ghost use Rattle.std.specs.Prelude.{List, length};
    ghost use Rattle.page_digests.specs.Sources.{SourceRead};

    ghost Value = { List SourceRead };

    ghost use Rattle.page_digests.specs.Past.{reads_of};

    ghost view = { λ p. reads_of p.last };

    ghost size = { λ reads. length reads };

    ghost use Rattle.std.proofs.Common.{arith, length-append};

    ghost size_decreases = { λ a h. Prim.grind (arith, length-append) };
}

impl Model for ByteList {
    ghost use Rattle.std.specs.Prelude.{List, ℕ, length};

    ghost Value = { List ℕ };

    ghost use Rattle.page_digests.specs.Past.{listed_bytes};

    ghost view = { λ l. listed_bytes l.last };

    ghost size = { λ bytes. length bytes };

    ghost use Rattle.std.proofs.Common.{arith, length-append};

    ghost size_decreases = { λ a h. Prim.grind (arith, length-append) };
}

impl SourcePast {
    /// Of a source that was asked for nothing yet.
    pub fn begun() -> Snapshot<Self>
        ensures { result.value ≡ [] }
    {
        let past = SourcePast {
            last: LastRead::Nothing,
        };
        Snapshot::of(&past)
    }

    /// This past and one read more, from `offset` on; `bytes` is the buffer after it.
    pub fn after(before: &Snapshot<Self>, offset: u64, bytes: &[u8], failed: bool) -> Snapshot<Self>
        ensures { result.value ≡ before.now.value ++ read_event offset bytes.now failed ∷ [] }
    {
        let past = SourcePast {
            last: LastRead::After(Snapshot::of(before), offset, ByteList::of(bytes), failed),
        };
        Snapshot::of(&past)
    }
}

impl ByteList {
    // The list of these bytes.
    fn of(bytes: &[u8]) -> Snapshot<Self>
        ensures { result.value ≡ bytes.now }
    {
        let mut listed = ByteList::nothing();
        for &byte in bytes {
            listed = ByteList::after(&listed, byte);
        }
        listed
    }

    // The list of no byte.
    fn nothing() -> Snapshot<Self>
        ensures { result.value ≡ [] }
    {
        let listed = ByteList {
            last: Bytes::Nothing,
        };
        Snapshot::of(&listed)
    }

    // The list with one byte more at its end.
    fn after(before: &Snapshot<Self>, byte: u8) -> Snapshot<Self>
        ensures { result.value ≡ before.now.value ++ byte ∷ [] }
    {
        let listed = ByteList {
            last: Bytes::After(Snapshot::of(before), byte),
        };
        Snapshot::of(&listed)
    }
}
