// A folder of the system.
ghost use Rattle.std.specs.Prelude.{◌≡◌, [], ◌∷◌, ◌++◌, IfOk};
ghost use Rattle.disk.specs.History.{life_of};
ghost use Rattle.paged.specs.Recovery.{IsDurable};
ghost use Rattle.segments.specs.FolderEvents.{plain_event, opening_outcome};
ghost use Rattle.segments.specs.Folders.{call_for};

use crate::call::FolderCall;
use crate::folder::{Asked, Folder};
use crate::known::{Known, copy_of};
use crate::names::Names;
use crate::past::FolderPast;
use crate::segment_digesting::SegmentLevels;
use disk::VecBlob;
use file::{FileBlob, OpenError};
use page_digests::FileSource;
use std::fs::File;
use std::io::ErrorKind;
use std::marker::Model;
use std::snapshot::Snapshot;
use std::{fs, io};

/// A folder of the system, in which a log's files stand: `manifest`, for each segment its number
/// with twenty digits and `.segment`, and for each closed one the same with `.digests`: its list.
/// The folder must be there; the files are made as they are needed.
#[derive(Drop)]
pub struct FileFolder {
    names: Names,
    past: Snapshot<FolderPast<FileBlob>>,
}

impl Model for FileFolder {
    ghost use Rattle.std.specs.Prelude.{List};
    ghost use Rattle.segments.specs.FolderEvents.{FolderEvent};

    ghost Value = { List FolderEvent };

    ghost view = { λ f. f.past.value };
}

impl FileFolder {
    /// The folder at a path, of which nothing was asked yet.
    pub fn new(rt: &HostRuntime, path: &str) -> io::Result<Self>
        ensures { IfOk result (λ folder. folder ≡ []) }
    {
        Ok(FileFolder {
            names: Names::new(rt, path)?,
            past: FolderPast::begun(),
        })
    }

    #[tactic(auto, using(crate::proofs::Durable::begun_durable))]
    fn open_file(&self, file: Asked) -> Result<FileBlob, OpenError>
        ensures { IfOk result (λ blob. IsDurable (life_of blob.kept.history).present) }
    {
        let path = self.names.path_of(file)?;
        file::open(self.names.rt(), path.as_str())
    }

    // The list goes first: a list whose segment is gone would stay for good.
    fn remove_files(&self, segment: u64) -> io::Result<()> {
        let rt = self.names.rt();
        match fs::remove_file(rt, self.names.list_path(segment)?.as_str()) {
            Err(error) if error.kind() != ErrorKind::NotFound => return Err(error),
            _ => {}
        }
        fs::remove_file(rt, self.names.path_of(Asked::Segment(segment))?.as_str())
    }

    fn write_levels(&self, segment: u64, levels: &SegmentLevels) -> io::Result<()> {
        let rt = self.names.rt();
        let bytes = levels.bytes(rt.alloc())?;
        file::keep(rt, self.names.list_path(segment)?.as_str(), &bytes)
    }

    fn sync_names(&self) -> io::Result<()> {
        File::open(self.names.rt(), self.names.folder())?.sync_all()
    }

    // Keeps a copy of these bytes of the manifest.
    fn write_copy(&self, manifest: &[u8], known: Known) -> io::Result<()> {
        let rt = self.names.rt();
        let bytes = match copy_of(rt.alloc(), known, manifest) {
            Ok(bytes) => bytes,
            Err(_) => return Err(ErrorKind::OutOfMemory.into()),
        };
        file::keep(rt, self.names.copy_path()?.as_str(), &bytes)
    }

    // Notes one call more.
    fn note(&mut self, call: FolderCall, failed: bool)
        ensures { self.new ≡ self.old ++ plain_event call failed ∷ [] }
    {
        self.past = FolderPast::after(&self.past, call, failed);
    }

    // Notes one opening more, which gave a file or failed.
    fn note_opening(&mut self, file: Asked, opened: &Result<FileBlob, OpenError>)
        ensures { let call = call_for file in
            let event = opening_outcome (λ b. life_of b.kept.history) call opened.now in
            self.new ≡ self.old ++ event ∷ [] }
    {
        let call = file.call();
        match opened {
            Ok(blob) => self.past = FolderPast::opened(&self.past, call, blob),
            Err(_) => self.note(call, true),
        }
    }
}

impl Folder<FileBlob> for FileFolder {
    type Source = FileSource;

    ghost asked = { λ f. f };

    fn open(&mut self, file: Asked) -> Result<FileBlob, OpenError> {
        let opened = self.open_file(file);
        self.note_opening(file, &opened);
        opened
    }

    fn close(&mut self, segment: u64, blob: FileBlob, manifest: &FileBlob) {
        self.past = FolderPast::closed(&self.past, segment, &blob, manifest);
    }

    fn bytes(blob: &FileBlob) -> &[u8] {
        blob.bytes()
    }

    fn failed_sync(blob: &FileBlob) -> bool {
        blob.failed_sync()
    }

    fn read(&mut self, file: Asked) -> io::Result<VecBlob> {
        file::read(self.names.rt(), self.names.path_of(file)?.as_str())
    }

    fn source(&mut self, segment: u64) -> io::Result<FileSource> {
        let path = self.names.path_of(Asked::Segment(segment))?;
        self.names.source(path.as_str())
    }

    fn list_source(&mut self, segment: u64) -> io::Result<FileSource> {
        self.names.source(self.names.list_path(segment)?.as_str())
    }

    fn write_list(&mut self, segment: u64, levels: &SegmentLevels) -> io::Result<()> {
        let written = self.write_levels(segment, levels);
        self.past = FolderPast::wrote(&self.past, segment, levels, written.is_err());
        written
    }

    fn has(&mut self, file: Asked) -> io::Result<bool> {
        self.names.has(file)
    }

    fn first(&mut self) -> io::Result<Option<u64>> {
        self.names.first()
    }

    fn last_with_bytes(&mut self) -> io::Result<Option<u64>> {
        self.names.last_with_bytes()
    }

    fn remove(&mut self, segment: u64) -> io::Result<()> {
        let removed = self.remove_files(segment);
        self.note(FolderCall::Removes(segment), removed.is_err());
        removed
    }

    fn sync(&mut self) -> io::Result<()> {
        let synced = self.sync_names();
        self.note(FolderCall::Syncs, synced.is_err());
        synced
    }

    fn keep(&mut self, manifest: &FileBlob, known: Known) -> io::Result<()> {
        let kept = self.write_copy(manifest.bytes(), known);
        self.past = FolderPast::kept(&self.past, manifest, known, kept.is_err());
        kept
    }

    fn kept(&mut self) -> io::Result<Option<Known>> {
        match file::read(self.names.rt(), self.names.copy_path()?.as_str()) {
            Ok(copy) => Ok(Known::of(copy.bytes())),
            Err(error) if error.kind() == ErrorKind::NotFound => Ok(None),
            Err(error) => Err(error),
        }
    }
}
