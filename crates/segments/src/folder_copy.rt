// A copy of a folder of the system, in memory.
ghost use Rattle.std.specs.Prelude.{◌≡◌, [], ◌∷◌, ◌++◌, IfOk};
ghost use Rattle.disk.specs.History.{life_of};
ghost use Rattle.paged.specs.Recovery.{IsDurable};
ghost use Rattle.segments.specs.FolderEvents.{plain_event, opening_outcome};
ghost use Rattle.segments.specs.Folders.{call_for};

use crate::call::FolderCall;
use crate::folder::{Asked, Folder};
use crate::known::Known;
use crate::names::Names;
use crate::past::FolderPast;
use crate::segment_digesting::SegmentLevels;
use disk::VecBlob;
use file::OpenError;
use page_digests::FileSource;
use std::io;
use std::marker::Model;
use std::snapshot::Snapshot;

/// A folder of the system of which nothing is changed: a file that is opened is read into memory,
/// and only that copy changes. A file that is missing isn't made: its opening answers `NotFound`. A
/// log over it is for reading; what is appended is lost when the log is dropped.
#[derive(Drop)]
pub struct FolderCopy {
    names: Names,
    past: Snapshot<FolderPast<VecBlob>>,
}

impl Model for FolderCopy {
    ghost use Rattle.std.specs.Prelude.{List};
    ghost use Rattle.segments.specs.FolderEvents.{FolderEvent};

    ghost Value = { List FolderEvent };

    ghost view = { λ f. f.past.value };
}

impl FolderCopy {
    /// The folder at a path, of which nothing was asked yet.
    pub fn new(rt: &HostRuntime, path: &str) -> io::Result<Self>
        ensures { IfOk result (λ folder. folder ≡ []) }
    {
        Ok(FolderCopy {
            names: Names::new(rt, path)?,
            past: FolderPast::begun(),
        })
    }

    #[tactic(auto, using(crate::proofs::Durable::begun_durable))]
    fn copy(&self, file: Asked) -> Result<VecBlob, OpenError>
        ensures { IfOk result (λ blob. IsDurable (life_of blob.history).present) }
    {
        let path = self.names.path_of(file)?;
        match file::read(self.names.rt(), path.as_str()) {
            Ok(copy) => Ok(copy),
            Err(error) => Err(OpenError::System(error)),
        }
    }

    // Notes one call more.
    fn note(&mut self, call: FolderCall, failed: bool)
        ensures { self.new ≡ self.old ++ plain_event call failed ∷ [] }
    {
        self.past = FolderPast::after(&self.past, call, failed);
    }

    // Notes one opening more, which gave a copy or failed.
    fn note_opening(&mut self, file: Asked, opened: &Result<VecBlob, OpenError>)
        ensures { let call = call_for file in
            let event = opening_outcome (λ b. life_of b.history) call opened.now in
            self.new ≡ self.old ++ event ∷ [] }
    {
        let call = file.call();
        match opened {
            Ok(blob) => self.past = FolderPast::opened(&self.past, call, blob),
            Err(_) => self.note(call, true),
        }
    }
}

impl Folder<VecBlob> for FolderCopy {
    type Source = FileSource;

    ghost asked = { λ f. f };

    fn open(&mut self, file: Asked) -> Result<VecBlob, OpenError> {
        let opened = self.copy(file);
        self.note_opening(file, &opened);
        opened
    }

    fn close(&mut self, segment: u64, blob: VecBlob, manifest: &VecBlob) {
        self.past = FolderPast::closed(&self.past, segment, &blob, manifest);
    }

    fn bytes(blob: &VecBlob) -> &[u8] {
        blob.bytes()
    }

    fn failed_sync(_blob: &VecBlob) -> bool {
        false
    }

    fn read(&mut self, file: Asked) -> io::Result<VecBlob> {
        file::read(self.names.rt(), self.names.path_of(file)?.as_str())
    }

    fn source(&mut self, segment: u64) -> io::Result<FileSource> {
        let path = self.names.path_of(Asked::Segment(segment))?;
        self.names.source(path.as_str())
    }

    fn list_source(&mut self, segment: u64) -> io::Result<FileSource> {
        self.names.source(self.names.list_path(segment)?.as_str())
    }

    /// Always refused with `PermissionDenied`: the folder isn't changed.
    fn write_list(&mut self, segment: u64, levels: &SegmentLevels) -> io::Result<()> {
        self.past = FolderPast::wrote(&self.past, segment, levels, true);
        Err(io::Error::from(io::ErrorKind::PermissionDenied))
    }

    fn has(&mut self, file: Asked) -> io::Result<bool> {
        self.names.has(file)
    }

    fn first(&mut self) -> io::Result<Option<u64>> {
        self.names.first()
    }

    fn last_with_bytes(&mut self) -> io::Result<Option<u64>> {
        self.names.last_with_bytes()
    }

    /// Always refused with `PermissionDenied`: the folder isn't changed.
    fn remove(&mut self, segment: u64) -> io::Result<()> {
        self.note(FolderCall::Removes(segment), true);
        Err(io::Error::from(io::ErrorKind::PermissionDenied))
    }

    /// Does nothing: no name changed.
    fn sync(&mut self) -> io::Result<()> {
        self.note(FolderCall::Syncs, false);
        Ok(())
    }

    /// Does nothing: no file is changed.
    fn keep(&mut self, manifest: &VecBlob, known: Known) -> io::Result<()> {
        self.past = FolderPast::kept(&self.past, manifest, known, false);
        Ok(())
    }

    /// Nothing: a log over a copy is for reading what there is.
    fn kept(&mut self) -> io::Result<Option<Known>> {
        Ok(None)
    }
}
