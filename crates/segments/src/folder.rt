// What a log's files stand in.
ghost use Rattle.std.specs.Prelude.{◌≡◌, [], ◌∷◌, ◌++◌, List, IfOk};
ghost use Rattle.disk.specs.History.{life_of, begun};
ghost use Rattle.paged.specs.Recovery.{IsDurable};
ghost use Rattle.segments.specs.Folders.{call_for};
ghost use Rattle.segments.specs.FolderEvents.{FolderEvent, closing_event, folder_outcome};
ghost use Rattle.segments.specs.FolderEvents.{keeping_outcome, opening_outcome, writing_outcome};
ghost use Rattle.segments.specs.SegmentLevels.{levels_bytes};
ghost use Rattle.segments.specs.declared.call.FolderCall.TheVariants as calls;

use crate::call::FolderCall;
use crate::known::Known;
use crate::segment_digesting::SegmentLevels;
use disk::{Blob, VecBlob};
use file::OpenError;
use page_digests::Source;
use std::io;

/// A file of a log.
#[derive(Clone, Copy)]
pub enum Asked {
    /// The file that lists the segments.
    Manifest,
    /// A segment, by its number.
    Segment(u64),
}

impl Asked {
    /// The folder's call that opens this file.
    pub(crate) fn call(self) -> FolderCall
        ensures { result ≡ call_for self }
    {
        match self {
            Asked::Manifest => FolderCall::OpensManifest,
            Asked::Segment(number) => FolderCall::Opens(number),
        }
    }
}

/// What the files of a log stand in, each of which is opened as a blob of the type `B`. No clause
/// says what a file gives: each says just what the folder was asked for.
pub trait Folder<B: Blob> {
    /// A file of which ranges are read.
    type Source: Source + Drop;

    /// The calls so far that change the folder or make it durable, how each went, and the bytes
    /// that each opened file gave.
    ghost asked: { Self → List FolderEvent };

    /// Opens a file to be written, and makes it where it is missing. The bytes that the file holds
    /// are durable then, and nobody else uses the file. `Unsynced` where a sync of the file, or of
    /// what has its name, failed.
    fn open(&mut self, file: Asked) -> Result<B, OpenError>
        ensures rests { IfOk result (λ blob. IsDurable (B.life blob).present) }
        ensures asked { let event = opening_outcome B.life (call_for file) result in
            asked self.new ≡ asked self.old ++ event ∷ [] };

    /// Takes back the blob of a segment that is closed: nobody writes it from then on. All of its
    /// bytes are durable. `manifest` is the manifest as it is now, which doesn't list the segment
    /// yet: it is for the record of the calls alone.
    fn close(&mut self, segment: u64, blob: B, manifest: &B)
        requires rests { IsDurable (B.life blob).present }
        ensures asked { let bytes = (B.life manifest.now).present.readable in
            let event = closing_event segment (B.life blob) bytes in
            asked self.new ≡ asked self.old ++ event ∷ [] };

    /// The bytes of a file that was opened.
    fn bytes(blob: &B) -> &[u8]
        ensures { result.now ≡ (B.life blob.now).present.readable };

    /// Whether a sync of a file that was opened failed. The layer answers most failed syncs as failed
    /// writes, so an opening asks for this after an error. `false` where no file is synced.
    fn failed_sync(blob: &B) -> bool;

    /// Reads a file into memory, and changes nothing. `NotFound` where it is missing.
    fn read(&mut self, file: Asked) -> io::Result<VecBlob>
        ensures rests { IfOk result (λ blob. let life = life_of blob.history in
            life ≡ begun life.present.readable []) }
        ensures asked { asked self.new ≡ asked self.old };

    /// The file of a closed segment, of which ranges are to be read. `NotFound` where it is
    /// missing.
    fn source(&mut self, segment: u64) -> io::Result<Self::Source>
        ensures asked { asked self.new ≡ asked self.old };

    /// The same of the file of its list.
    fn list_source(&mut self, segment: u64) -> io::Result<Self::Source>
        ensures asked { asked self.new ≡ asked self.old };

    /// Makes the file of a segment's list hold these levels, as
    /// [`SegmentLevels::bytes`](crate::SegmentLevels::bytes) gives them, and makes that durable.
    /// After an error it may hold anything.
    fn write_list(&mut self, segment: u64, levels: &SegmentLevels) -> io::Result<()>
        ensures asked { let bytes = levels_bytes levels.now in
            asked self.new ≡ asked self.old ++ writing_outcome segment bytes result ∷ [] };

    /// Whether a file is there.
    fn has(&mut self, file: Asked) -> io::Result<bool>
        ensures asked { asked self.new ≡ asked self.old };

    /// The least number of a segment whose file is there.
    fn first(&mut self) -> io::Result<Option<u64>>
        ensures asked { asked self.new ≡ asked self.old };

    /// The greatest number of a segment whose file has bytes.
    fn last_with_bytes(&mut self) -> io::Result<Option<u64>>
        ensures asked { asked self.new ≡ asked self.old };

    /// Removes the file of a segment's list, if it is there, and then the file of the segment.
    fn remove(&mut self, segment: u64) -> io::Result<()>
        ensures asked { asked self.new
            ≡ asked self.old ++ folder_outcome (calls.Removes segment) result ∷ [] };

    /// Makes the names of the files durable.
    fn sync(&mut self) -> io::Result<()>
        ensures asked { asked self.new ≡ asked self.old ++ folder_outcome calls.Syncs result ∷ [] };

    /// Makes the copy of the manifest hold these bytes of the manifest and what is known of the
    /// open segment, and makes that durable. After an error the copy may hold anything.
    fn keep(&mut self, manifest: &B, known: Known) -> io::Result<()>
        ensures asked { let bytes = (B.life manifest.now).present.readable in
            let event = keeping_outcome known.segment known.len bytes result in
            asked self.new ≡ asked self.old ++ event ∷ [] };

    /// What was known of the open segment as a copy of the manifest was kept last. `None` where
    /// there is no copy, or where it isn't whole.
    fn kept(&mut self) -> io::Result<Option<Known>>
        ensures asked { asked self.new ≡ asked self.old };
}
