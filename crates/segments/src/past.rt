// What a folder was asked for, as ghost data: nothing of it is left at run time.
ghost use Rattle.std.specs.Prelude.{◌≡◌, [], ◌∷◌, ◌++◌};
ghost use Rattle.segments.specs.FolderEvents.{closing_event, keeping_event, plain_event};
ghost use Rattle.segments.specs.FolderEvents.{opening_with, writing_event};
ghost use Rattle.segments.specs.SegmentLevels.{levels_bytes};

use crate::call::FolderCall;
use crate::known::Known;
use crate::segment_digesting::SegmentLevels;
use disk::Blob;
use std::marker::Model;
use std::snapshot::Snapshot;

/// What a folder was asked for so far, how each call went, and what each opened file gave. It is
/// for whoever writes a [`crate::Folder`]: hold one as a `Snapshot`, which takes no memory, and let
/// each call put one event more after it.
#[cycle(past)]
#[derive(Drop)]
pub struct FolderPast<B: Blob> {
    last: Last<B>,
}

// The last call, and the past before it.
#[cycle(past)]
#[derive(Drop)]
enum Last<B: Blob> {
    Nothing,
    After(Snapshot<Snapshot<FolderPast<B>>>, FolderCall, bool),
    Opened(Snapshot<Snapshot<FolderPast<B>>>, FolderCall, Snapshot<B>),
    Kept(Snapshot<Snapshot<FolderPast<B>>>, u64, u64, Snapshot<B>, bool),
    Closed(Snapshot<Snapshot<FolderPast<B>>>, u64, Snapshot<B>, Snapshot<B>),
    Wrote(Snapshot<Snapshot<FolderPast<B>>>, u64, Snapshot<SegmentLevels>, bool),
}

impl<B: Blob> Model for FolderPast<B> {
    ghost use Rattle.std.specs.Prelude.{List, length};
    ghost use Rattle.segments.specs.FolderEvents.{FolderEvent};

    ghost Value = { List FolderEvent };

    ghost use Rattle.segments.specs.FolderPast.{events_of};

    ghost view = { λ p. events_of B.life p.last };

    ghost size = { λ events. length events };

    ghost use Rattle.std.proofs.Common.{arith, length-append};

    ghost size_decreases = { λ a h. Prim.grind (arith, length-append) };
}

impl<B: Blob> FolderPast<B> {
    /// A folder that was asked for nothing yet.
    pub fn begun() -> Snapshot<Self>
        ensures { result.value ≡ [] }
    {
        let past = FolderPast {
            last: Last::Nothing,
        };
        Snapshot::of(&past)
    }

    /// This past and one call more.
    pub fn after(before: &Snapshot<Self>, call: FolderCall, failed: bool) -> Snapshot<Self>
        ensures { result.value ≡ before.now.value ++ plain_event call failed ∷ [] }
    {
        let past = FolderPast {
            last: Last::After(Snapshot::of(before), call, failed),
        };
        Snapshot::of(&past)
    }

    /// This past and one opening more, which gave this blob.
    pub fn opened(before: &Snapshot<Self>, call: FolderCall, blob: &B) -> Snapshot<Self>
        ensures { let given = (B.life blob.now).present.readable in
            result.value ≡ before.now.value ++ opening_with call given ∷ [] }
    {
        let past = FolderPast {
            last: Last::Opened(Snapshot::of(before), call, Snapshot::of(blob)),
        };
        Snapshot::of(&past)
    }

    /// This past and one call more, which took back this blob of a segment; the manifest is the
    /// other blob.
    pub fn closed(before: &Snapshot<Self>, segment: u64, blob: &B, manifest: &B) -> Snapshot<Self>
        ensures { let bytes = (B.life manifest.now).present.readable in
            let event = closing_event segment (B.life blob.now) bytes in
            result.value ≡ before.now.value ++ event ∷ [] }
    {
        let before = Snapshot::of(before);
        let past = FolderPast {
            last: Last::Closed(before, segment, Snapshot::of(blob), Snapshot::of(manifest)),
        };
        Snapshot::of(&past)
    }

    /// This past and one call more that was to write the list's file of a segment.
    pub fn wrote(
        before: &Snapshot<Self>,
        segment: u64,
        levels: &SegmentLevels,
        failed: bool,
    ) -> Snapshot<Self>
        ensures { let bytes = levels_bytes levels.now in
            result.value ≡ before.now.value ++ writing_event segment bytes failed ∷ [] }
    {
        let before = Snapshot::of(before);
        let past = FolderPast {
            last: Last::Wrote(before, segment, Snapshot::of(levels), failed),
        };
        Snapshot::of(&past)
    }

    /// This past and one call more that was to keep a copy of the manifest, which is this blob, and
    /// with it these two numbers.
    pub fn kept(before: &Snapshot<Self>, manifest: &B, known: Known, failed: bool) -> Snapshot<Self>
        ensures { let bytes = (B.life manifest.now).present.readable in
            result.value
            ≡ before.now.value ++ keeping_event known.segment known.len bytes failed ∷ [] }
    {
        let before = Snapshot::of(before);
        let past = FolderPast {
            last: Last::Kept(
                before,
                known.segment,
                known.len,
                Snapshot::of(manifest),
                failed,
            ),
        };
        Snapshot::of(&past)
    }
}
